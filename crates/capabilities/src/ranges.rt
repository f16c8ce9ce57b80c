// Ranges of virtual cells.
ghost use Rattle.std.specs.Prelude.{◌≡◌};
ghost use Rattle.capabilities.specs.Range.{inside};

use crate::Range;

pub fn inside(range: Range, cell: u32) -> bool
    ensures { result ≡ inside range cell }
{
    let base = range.base as u32;
    let end = base + range.length as u32;
    (base <= cell) & (cell < end)
}
