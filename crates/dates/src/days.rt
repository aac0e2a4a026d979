// The date of a day, and the day of a date.
ghost use Rattle.std.specs.Prelude.{◌≡◌, ◌+◌, ◌-◌, ◌<◌, ◌≤◌};
ghost use Rattle.dates.specs.Lengths.{leap, days_of_month, months_before, days_of_year, years_before};
ghost use Rattle.dates.specs.Days.{date_of_day, known, day_at, DayOf};

use crate::date::Date;

// Whether a year has a 29 February.
fn is_leap(year: u32) -> bool
    ensures { result ≡ leap year }
{
    year % 4 == 0 && (year % 100 != 0 || year % 400 == 0)
}

// How many days a month has.
fn month_length(year: u32, month: u8) -> u8
    ensures value { result ≡ days_of_month year month }
    ensures bound { result ≤ 31 }
{
    match month {
        2 if is_leap(year) => 29,
        2 => 28,
        4 | 6 | 9 | 11 => 30,
        _ => 31,
    }
}

// How many days a year has.
fn year_length(year: u32) -> u32
    ensures value { result ≡ days_of_year year }
    ensures bound { (365 ≤ result) × (result ≤ 366) }
{
    if is_leap(year) { 366 } else { 365 }
}

// How many days stand before a month of its year.
fn before_month(year: u32, month: u8) -> u32
    requires { (1 ≤ month) × (month ≤ 12) }
    ensures value { result ≡ months_before year (month - 1) }
    ensures bound { result ≤ 372 }
{
    (1..month).map(|m| u32::from(month_length(year, m))).sum()
}

// How many days stand before a year, from 2000 on.
fn before_year(year: u32) -> u32
    requires { (2000 ≤ year) × (year ≤ 2099) }
    ensures value { result ≡ years_before (year - 2000) }
    ensures bound { result ≤ 36600 }
{
    (2000..year).map(year_length).sum()
}

// The year of a day, and how many days of it are past.
// Years and months are counted alike, in four lines each: one function for both would take the lengths as a closure with a bound of its own.
fn in_year(day: u16) -> (u32, u32)
    ensures sum { years_before (result.0 - 2000) + result.1 ≡ day }
    ensures past { result.1 < days_of_year result.0 }
    ensures from { 2000 ≤ result.0 }
{
    let mut year = 2000;
    let mut past = u32::from(day);
    while let Some(rest) = past.checked_sub(year_length(year)) {
        past = rest;
        year += 1;
    }
    (year, past)
}

// The date of the day of a year that so many days stand before.
fn in_month(year: u32, past: u32) -> Date
    requires { past < days_of_year year }
    ensures sum { months_before year (result.month - 1) + (result.day - 1) ≡ past }
    ensures month { (1 ≤ result.month) × (result.month ≤ 12) }
    ensures day { (1 ≤ result.day) × (result.day ≤ days_of_month year result.month) }
    ensures year { result.year ≡ year }
{
    let mut month = 1;
    let mut past = past;
    while let Some(rest) = past.checked_sub(u32::from(month_length(year, month))) {
        past = rest;
        month += 1;
    }
    Date {
        year,
        month,
        day: past as u8 + 1,
    }
}

// The date of a day.
// No `From<u16>`: a bare number is a date only by this count of days from 1 January 2000.
pub fn date_of(day: u16) -> Date
    ensures { result ≡ date_of_day day }
{
    let (year, past) = in_year(day);
    in_month(year, past)
}

// Whether there is such a date from 2000-01-01 to 2099-12-31.
fn is_known(date: Date) -> bool
    ensures { result ≡ known date }
{
    (2000..=2099).contains(&date.year)
        && (1..=12).contains(&date.month)
        && (1..=month_length(date.year, date.month)).contains(&date.day)
}

// The day with this date, if it is one from 2000-01-01 to 2099-12-31. No `TryFrom<Date>`: a bare number is a day only by this count.
pub fn day_of(date: Date) -> Option<u16>
    ensures value { result ≡ day_at date }
    ensures meaning { DayOf date result }
{
    if !is_known(date) {
        return None;
    }
    let before = before_year(date.year) + before_month(date.year, date.month);
    Some((before + u32::from(date.day) - 1) as u16)
}
