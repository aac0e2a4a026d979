// Sheets at the borders of the rules.
#![tactic(auto)]

#[cfg(test)]
mod sheet_tests {
    use kinds::{Booking, Kind, Notice};
    use refusals::{Ground, Layer, Refusal};
    use sheets::{SheetRecords, check};
    use tables::{Row, Seat};
    use writing::write;

    // Line 7 from day 9000 to day 9002, trial, crew 5, booked as 1.1: from site 1 for site 2 of 3.
    fn first_sheet() -> [u8; 50] {
        let mut s = [0; 50];
        s[0..5].copy_from_slice(&[1, 3, 1, 2, 1]);
        s[8] = 1;
        s[41..50].copy_from_slice(&[1, 0, 7, 0x23, 0x28, 0x23, 0x2A, 2, 5]);
        s
    }

    // 1.1 is struck as 3.1: from site 3 for site 1 of 3.
    fn strike_sheet() -> [u8; 47] {
        let mut s = [0; 47];
        s[0..5].copy_from_slice(&[1, 3, 3, 1, 1]);
        s[8] = 1;
        s[20] = 1;
        s[32] = 1;
        s[40] = 1;
        s[41..47].copy_from_slice(&[2, 1, 0, 0, 0, 1]);
        s
    }

    // The words HALT, booked as 8.1, and 8.1 struck as 8.2: from site 8 for site 1 of 8.
    fn wide_sheet() -> [u8; 273] {
        let mut s = [0; 273];
        s[0..5].copy_from_slice(&[1, 8, 8, 1, 2]);
        s[260] = 2;
        s[261..267].copy_from_slice(&[1, 3, b'H', b'A', b'L', b'T']);
        s[267..273].copy_from_slice(&[2, 8, 0, 0, 0, 1]);
        s
    }

    // What is told of a sheet at a site of a group that has this row of its own, or none at hand.
    fn told<K: Kind + Copy>(sites: u8, own: u8, row: Option<Row>, sheet: &[u8]) -> Option<Refusal> {
        let seat = Seat::new(sites, own).ok()?;
        check::<K>(seat, row, sheet).err().map(|x| x.refusal())
    }

    // A refusal by the sheet.
    fn with(number: u8, carried: u64) -> Option<Refusal> {
        Some(Refusal {
            number,
            carried,
            layer: Layer::Sheet,
        })
    }

    // A refusal by the site.
    fn by_site(number: u8, carried: u64) -> Option<Refusal> {
        Some(Refusal {
            number,
            carried,
            layer: Layer::Site,
        })
    }

    #[test]
    fn worked(rt: HostRuntime) {
        assert_eq!(rt; told::<Booking>(3, 2, None, &first_sheet()), None);
        assert_eq!(rt;
            told::<Booking>(3, 2, Some(Row::empty()), &first_sheet()),
            None
        );
        assert_eq!(rt; told::<Booking>(3, 1, None, &strike_sheet()), None);
        assert_eq!(rt; told::<Notice>(8, 1, None, &wide_sheet()), None);
        assert_eq!(rt; told::<Booking>(3, 3, None, &first_sheet()), with(5, 3));
    }

    #[test]
    fn cut_anywhere(rt: HostRuntime) {
        let s = first_sheet();
        let w = wide_sheet();
        for n in 0..50 {
            assert_eq!(rt; told::<Booking>(3, 2, None, &s[0..n]), with(4, n as u64));
        }
        for n in 0..273 {
            assert_eq!(rt; told::<Notice>(8, 1, None, &w[0..n]), with(4, n as u64));
        }
    }

    // Which of three calls for a record give one, when this lies where a good sheet should, and what the walk's check tells then.
    fn walked<K: Kind + Copy>(
        sites: u8,
        own: u8,
        good: &[u8],
        sheet: &[u8],
    ) -> Option<([bool; 3], Option<Refusal>)> {
        let seat = Seat::new(sites, own).ok()?;
        let checked = check::<K>(seat, None, good).ok()?;
        let mut records = SheetRecords::<K>::new(seat, checked.writer, &checked.table, sheet);
        let came = [
            records.next().is_some(),
            records.next().is_some(),
            records.next().is_some(),
        ];
        Some((came, records.check().err().map(|x| x.refusal())))
    }

    // The same of the first sheet and of the wide one.
    fn walked_first(sheet: &[u8]) -> Option<([bool; 3], Option<Refusal>)> {
        walked::<Booking>(3, 2, &first_sheet(), sheet)
    }

    fn walked_wide(sheet: &[u8]) -> Option<([bool; 3], Option<Refusal>)> {
        walked::<Notice>(8, 1, &wide_sheet(), sheet)
    }

    #[test]
    fn walk_stays_where_it_is_cut(rt: HostRuntime) {
        let s = first_sheet();
        let w = wide_sheet();
        for n in 41..50 {
            assert_eq!(rt;
                walked_first(&s[0..n]),
                Some(([false; 3], with(4, n as u64)))
            );
        }
        for n in 261..267 {
            assert_eq!(rt;
                walked_wide(&w[0..n]),
                Some(([false; 3], with(4, n as u64)))
            );
        }
        for n in 267..273 {
            assert_eq!(rt;
                walked_wide(&w[0..n]),
                Some(([true, false, false], with(4, n as u64)))
            );
        }
        assert_eq!(rt; walked_first(&s), Some(([true, false, false], None)));
        assert_eq!(rt; walked_wide(&w), Some(([true, true, false], None)));
    }

    #[test]
    fn walk_stays_at_a_bad_record(rt: HostRuntime) {
        let mut s = first_sheet();
        s[41] = 3;
        assert_eq!(rt; walked_first(&s), Some(([false; 3], with(7, 41))));
        let mut w = wide_sheet();
        w[268] = 9;
        assert_eq!(rt; walked_wide(&w), Some(([true, false, false], with(7, 268))));
        w[261] = 0;
        assert_eq!(rt; walked_wide(&w), Some(([false; 3], with(7, 261))));
    }

    // The head of the first sheet with one byte changed.
    fn head_changed(place: usize, value: u8) -> Option<Refusal> {
        // from site 3, whose row has no event of site 1
        if place == 2 && value == 3 {
            return with(6, 5);
        }
        with(5, place as u64)
    }

    // Its table with the number at a place changed to n, which it was not.
    fn table_changed(place: u64, n: u64) -> Option<Refusal> {
        if n > 1_000_000 {
            return with(6, place);
        }
        match place {
            // no record is announced, or one more than there is
            5 if n == 0 => with(8, 41),
            5 => with(4, 50),
            // the writer's row does not have what the origin's own has
            9 => with(6, 21),
            13 => with(6, 37),
            // site 2 has event 1.1 already
            17 if n == 1 => with(8, 41),
            // site 3 has it
            29 if n == 1 => None,
            _ => with(6, place),
        }
    }

    // Its record with one byte changed.
    fn record_changed(place: usize, value: u8) -> Option<Refusal> {
        match (place, value) {
            // read as a strike: the site is 0
            (41, 2) => with(7, 42),
            (41, _) => with(7, 41),
            (42, 0..=3) => None,
            (42, _) => with(7, 42),
            (43, 0) => with(7, 42),
            (43, _) => None,
            // the first day is in range up to the byte 0x8E, and not behind the last up to 0x22
            (44, 0..=0x22) => None,
            (44, 0x24..=0x8E) => with(7, 46),
            (44, _) => with(7, 44),
            (45, 0..=0x2A) => None,
            (45, _) => with(7, 46),
            (46, 0x24..=0x8E) => None,
            (46, _) => with(7, 46),
            (47, 0x28..=0xFF) => None,
            (47, _) => with(7, 46),
            (48, 1..=3) => None,
            (48, _) => with(7, 48),
            (49, 0..=99) => None,
            _ => with(7, 49),
        }
    }

    // What is told of the first sheet with one byte changed, and what should be; nothing if that changes no byte.
    fn changed(place: usize, value: u8) -> Option<(Option<Refusal>, Option<Refusal>)> {
        let mut s = first_sheet();
        let byte = s.get_mut(place)?;
        if *byte == value {
            return None;
        }
        *byte = value;
        let wanted = match place {
            0..=4 => head_changed(place, value),
            41.. => record_changed(place, value),
            _ => {
                let at = place - (place - 5) % 4;
                let n = u32::from_be_bytes([s[at], s[at + 1], s[at + 2], s[at + 3]]);
                table_changed(at as u64, u64::from(n))
            }
        };
        Some((told::<Booking>(3, 2, None, &s), wanted))
    }

    #[test]
    fn one_byte_changed(rt: HostRuntime) {
        for place in 0..50 {
            for value in [
                0, 1, 2, 3, 4, 15, 16, 0x22, 0x24, 0x28, 0x2A, 0x2B, 99, 100, 0x8E, 0x8F, 255,
            ] {
                if let Some((got, wanted)) = changed(place, value) {
                    assert_eq!(rt; got, wanted);
                }
            }
        }
    }

    #[test]
    fn last_places(rt: HostRuntime) {
        let mut s = wide_sheet();
        // the table's last number, and the writer's own
        s[257] = 1;
        assert_eq!(rt; told::<Notice>(8, 1, None, &s), with(6, 257));
        // the last field that a sheet can have: the number of a strike
        s = wide_sheet();
        s[272] = 3;
        assert_eq!(rt; told::<Notice>(8, 1, None, &s), with(7, 269));
        s[272] = 2;
        assert_eq!(rt; told::<Notice>(8, 1, None, &s), None);
        // no record, and a byte where one would be
        let mut bare = [0; 22];
        bare[0..5].copy_from_slice(&[1, 2, 2, 1, 1]);
        assert_eq!(rt; told::<Booking>(2, 1, None, &bare), with(8, 21));
        assert_eq!(rt; told::<Booking>(2, 1, None, &bare[0..21]), None);
        // a million records in no bytes
        bare[18..21].copy_from_slice(&[0x0F, 0x42, 0x40]);
        assert_eq!(rt; told::<Booking>(2, 1, None, &bare[0..21]), with(4, 21));
    }

    // The smallest group with notices, and the largest with bookings: one record each.
    #[test]
    fn both_kinds(rt: HostRuntime) {
        let mut small = [0; 27];
        small[0..5].copy_from_slice(&[1, 2, 2, 1, 2]);
        small[20] = 1;
        small[21..27].copy_from_slice(&[1, 1, 3, 0xE7, 0x8E, 0xAC]);
        assert_eq!(rt; told::<Notice>(2, 1, None, &small), None);
        small[26] = 0xAD;
        assert_eq!(rt; told::<Notice>(2, 1, None, &small), with(7, 25));
        let mut large = [0; 270];
        large[0..5].copy_from_slice(&[1, 8, 8, 1, 1]);
        large[260] = 1;
        large[261..270].copy_from_slice(&[1, 3, 0xE7, 0, 0, 0x8E, 0xAC, 3, 99]);
        assert_eq!(rt; told::<Booking>(8, 1, None, &large), None);
        large[269] = 100;
        assert_eq!(rt; told::<Booking>(8, 1, None, &large), with(7, 269));
    }

    #[test]
    fn own_rows(rt: HostRuntime) {
        let mut s = [0; 22];
        s[0..5].copy_from_slice(&[1, 2, 2, 1, 1]);
        // both sites have one event of each, as site 2 says, and the last byte is one too many
        s[8] = 1;
        s[12] = 1;
        s[16] = 1;
        s[20] = 1;
        let mut row = Row::empty();
        assert_eq!(rt; told::<Booking>(2, 1, Some(row), &s), by_site(20, 1));
        row.set_number(1, 1);
        assert_eq!(rt; told::<Booking>(2, 1, Some(row), &s), by_site(20, 2));
        row.set_number(2, 1);
        assert_eq!(rt; told::<Booking>(2, 1, Some(row), &s), with(8, 21));
        assert_eq!(rt; told::<Booking>(2, 1, None, &s), with(8, 21));
    }

    // Reads a sheet at site i of a group, and writes it again as its writer would: its length, or the refusal; nothing for one that is not read.
    fn rewritten<K: Kind + Copy>(
        sites: u8,
        i: u8,
        sheet: &[u8],
        out: &mut [u8],
    ) -> Option<Result<usize, Refusal>> {
        let seat = Seat::new(sites, i).ok()?;
        let checked = check::<K>(seat, None, sheet).ok()?;
        let records = SheetRecords::<K>::new(seat, checked.writer, &checked.table, sheet);
        let writer = Seat::new(sites, checked.writer).ok()?;
        let written = write::<K, SheetRecords<K>>(writer, i, &checked.table, records, out);
        Some(written.map_err(|x| x.refusal()))
    }

    // The first sheet in a buffer that is two bytes longer.
    fn first_in_buffer() -> [u8; 52] {
        let mut s = [7; 52];
        s[0..50].copy_from_slice(&first_sheet());
        s
    }

    #[test]
    fn too_short(rt: HostRuntime) {
        let mut out = [7; 49];
        assert_eq!(rt;
            rewritten::<Booking>(3, 2, &first_sheet(), &mut out),
            Some(Err(Refusal {
                number: 9,
                carried: 50,
                layer: Layer::Site,
            }))
        );
        assert_eq!(rt; out, [7; 49]);
    }

    #[test]
    fn written_first(rt: HostRuntime) {
        let mut out = [7; 52];
        assert_eq!(rt;
            rewritten::<Booking>(3, 2, &first_sheet(), &mut out),
            Some(Ok(50))
        );
        assert_eq!(rt; out, first_in_buffer());
    }

    #[test]
    fn written_strike(rt: HostRuntime) {
        let mut out = [7; 47];
        assert_eq!(rt;
            rewritten::<Booking>(3, 1, &strike_sheet(), &mut out),
            Some(Ok(47))
        );
        assert_eq!(rt; out, strike_sheet());
    }

    #[test]
    fn written_wide(rt: HostRuntime) {
        let mut out = [7; 273];
        assert_eq!(rt;
            rewritten::<Notice>(8, 1, &wide_sheet(), &mut out),
            Some(Ok(273))
        );
        assert_eq!(rt; out, wide_sheet());
    }
}
