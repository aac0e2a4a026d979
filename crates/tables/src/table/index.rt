ghost use Rattle.std.specs.Prelude.{◌≡◌};
ghost use Rattle.tables.specs.Numbers.{index_of};

// The index of a site in an array of eight, and none outside.
pub fn index_of(site: u8) -> Option<usize>
    ensures { result ≡ index_of site }
{
    let index = usize::from(site).checked_sub(1)?;
    (index < 8).then_some(index)
}
