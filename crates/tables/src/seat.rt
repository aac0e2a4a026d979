// A site's place in its group.
ghost use Rattle.std.specs.Prelude.{◌≤◌};

use crate::refusal::SeatRefusal;

// A site's place: the size of its group, 2 to 8, and its own number there, from 1 on.
#[derive(Clone, Copy, PartialEq, Eq, Debug)]
pub struct Seat {
    pub sites: u8,
    pub own: u8,
    ghost group: { (2 ≤ sites) × (sites ≤ 8) },
    ghost member: { (1 ≤ own) × (own ≤ sites) },
}

impl Seat {
    ghost use Rattle.std.specs.Prelude.{◌≡◌};
    ghost use Rattle.rules.specs.Sites.{site_checked};
    ghost use Rattle.rules.specs.Stamps.{within};
    ghost use Rattle.rules.specs.Sheets.{front_length};
    ghost use Rattle.tables.specs.Seats.{seat_ranged, seat_shown, seat_told};

    // The place of a site in a group of so many.
    pub fn new(sites: u8, own: u8) -> Result<Seat, SeatRefusal>
        ensures value { seat_shown result ≡ seat_ranged sites own }
        ensures rules { seat_told result ≡ site_checked sites own }
    {
        if !(2..=8).contains(&sites) {
            return Err(SeatRefusal::Sites);
        }
        if !(1..=sites).contains(&own) {
            return Err(SeatRefusal::Own);
        }
        Ok(Seat { sites, own })
    }

    // Whether a site is one of the group's.
    pub fn has(self, site: u8) -> bool
        ensures { result ≡ within self.sites site }
    {
        (1..=self.sites).contains(&site)
    }

    // How many bytes of a sheet stand in front of its records: the head and the table.
    pub fn front_length(self) -> usize
        ensures { result ≡ front_length self.sites }
    {
        let sites = usize::from(self.sites);
        5 + 4 * (sites * sites)
    }
}
