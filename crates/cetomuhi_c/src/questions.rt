// Which reservations lie where, as C asks it.
ghost use Rattle.std.specs.Prelude.{◌≡◌};
ghost use Rattle.maps.specs.declared.Question.TheVariants.{Sharing, Within};
ghost use Rattle.cetomuhi.specs.Maps.{list_answer, list_lent, sited, nearest_lent};

// The bases of the reservations that share a cell with `cells` cells from `first` on, and how many they are: code 0, or 25.
#[unsafe(no_mangle)]
pub extern "C" fn cetomuhi_sharing(
    rows: &[u64],
    first: u64,
    cells: u64,
    bases: &mut [u16],
    count: &mut u64,
) -> u8
    ensures { list_answer result count.new bases.new ≡ list_lent rows.now (Sharing first cells) count.old bases.old }
{
    cetomuhi::questions::cetomuhi_sharing(rows, first, cells, bases, count)
}

// The same of those that lie within these cells.
#[unsafe(no_mangle)]
pub extern "C" fn cetomuhi_within(
    rows: &[u64],
    first: u64,
    cells: u64,
    bases: &mut [u16],
    count: &mut u64,
) -> u8
    ensures { list_answer result count.new bases.new ≡ list_lent rows.now (Within first cells) count.old bases.old }
{
    cetomuhi::questions::cetomuhi_within(rows, first, cells, bases, count)
}

// Whether an Open one has at least `cells` cells, and the base of the one nearest to a cell, else 0: code 0, or 25.
#[unsafe(no_mangle)]
pub extern "C" fn cetomuhi_nearest(
    rows: &[u64],
    cell: u64,
    cells: u64,
    found: &mut u64,
    base: &mut u64,
) -> u8
    ensures { sited result found.new base.new ≡ nearest_lent rows.now cell cells found.old base.old }
{
    cetomuhi::questions::cetomuhi_nearest(rows, cell, cells, found, base)
}
