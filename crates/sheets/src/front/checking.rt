// Checking a whole sheet: the head, the table, the own row, the records.
ghost use Rattle.std.specs.Prelude.{◌≡◌};
ghost use Rattle.std.specs.Option.{option_map};
ghost use Rattle.rules.specs.Results.{refused_as};
ghost use Rattle.rules.specs.Reading.{read};
ghost use Rattle.kinds.specs.Formats.{rule_of};
ghost use Rattle.tables.specs.Numbers.{in_row};
ghost use Rattle.readers.specs.Refused.{refusal_of};
ghost use Rattle.sheets.specs.Judged.{head_judged, sheet_judged};
ghost use Rattle.sheets.specs.Told.{checked_shown, without_records};

use crate::checked::Checked;
use crate::front::Front;
use crate::records::SheetRecords;
use kinds::Kind;
use readers::{HeadByte, SheetRefusal};
use tables::{Row, Seat};

// The writer of a sheet for this seat, with entries of the kind with this code.
fn read_head(bytes: &[u8], seat: Seat, code: u8) -> Result<u8, SheetRefusal>
    ensures { result ≡ head_judged seat.sites seat.own code bytes.now }
{
    let [version, sites, writer, addressee, kind, ..] = *bytes else {
        return Err(SheetRefusal::EndsEarly {
            length: bytes.len(),
        });
    };
    if version != 1 {
        return Err(SheetRefusal::Head(HeadByte::Version));
    }
    if sites != seat.sites {
        return Err(SheetRefusal::Head(HeadByte::Sites));
    }
    if !seat.has(writer) || writer == seat.own {
        return Err(SheetRefusal::Head(HeadByte::Writer));
    }
    if addressee != seat.own {
        return Err(SheetRefusal::Head(HeadByte::Addressee));
    }
    if kind != code {
        return Err(SheetRefusal::Head(HeadByte::Kind));
    }
    Ok(writer)
}

// Checks a sheet as the site of this seat does before it accepts it; where no own row is given, all but that row is checked.
pub fn check<V: Kind + Copy>(
    seat: Seat,
    own: Option<Row>,
    bytes: &[u8],
) -> Result<Checked, SheetRefusal>
    ensures value { checked_shown result ≡ sheet_judged V.Kind.format seat.sites seat.own (option_map in_row own) bytes.now }
    ensures rules { refused_as refusal_of (checked_shown result) ≡ without_records (read (rule_of V.Kind.format) seat.sites seat.own (option_map in_row own) bytes.now) }
{
    let writer = read_head(bytes, seat, V::CODE)?;
    let front = Front::new(seat, writer, bytes)?;
    front.check_table()?;
    front.check_own(own)?;
    let table = front.table();
    SheetRecords::<V>::new(seat, writer, &table, bytes).check()?;
    Ok(Checked { writer, table })
}
