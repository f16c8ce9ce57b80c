// Which capabilities die with a revocation.
ghost use Rattle.std.specs.Prelude.{not, ◌≡◌, ℕ, ◌<◌};
ghost use Rattle.capabilities.specs.Capability.{base_of};
ghost use Rattle.capabilities.specs.Death.{dies, last_of};

use crate::Range;
use crate::capability::base_of;
use crate::ranges::inside;

pub fn dies(range: Range, cell: u64) -> bool
    ensures { result ≡ dies range cell }
{
    inside(range, base_of(cell) as u32)
}

// The last base that dies with a range that is not empty.
pub fn last_of(range: Range) -> u16
    ensures { result ≡ last_of range }
{
    let last = range.base as u32 + range.length.saturating_sub(1) as u32;
    last.min(65535) as u16
}

// That a capability does not die, by its base and the last one that does: numbers of 16 bits, of which a loop takes eight at once.
// It answers "lives" and not "dies", since the loop then needs no further operation.
pub fn base_lives(range: Range, last: u16, base: u16) -> bool
    ensures { (cell : ℕ) → 0 < range.length → last ≡ last_of range → base ≡ base_of cell → result ≡ not (dies range cell) }
{
    !((range.base <= base) & (base <= last))
}
