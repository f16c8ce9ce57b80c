// Ranges of cells, as plain numbers. A sum past what a u64 holds is above every cell, so it may be its highest number instead.
ghost use Rattle.std.specs.Prelude.{◌≡◌};
ghost use Rattle.maps.specs.Cells.{span, shares, within, distance, beyond};

// `length` cells from `base` on share a cell with `cells` cells from `first` on.
#[tactic(auto, unfolding(crate::specs::Cells::shares))]
pub fn shares(base: u16, length: u16, first: u64, cells: u64) -> bool
    ensures { result ≡ shares (span base length) (span first cells) }
{
    let from = base as u64;
    let end = from + length as u64;
    (first < end) & (from < first.saturating_add(cells))
}

// All of them lie within.
#[tactic(auto, unfolding(crate::specs::Cells::within))]
pub fn lies_within(base: u16, length: u16, first: u64, cells: u64) -> bool
    ensures { result ≡ within (span base length) (span first cells) }
{
    let from = base as u64;
    let end = from + length as u64;
    (first <= from) & (end <= first.saturating_add(cells))
}

// How far a cell is from the closest of them: what it lacks to the first, or has above the last.
#[tactic(auto, unfolding(crate::specs::Cells::distance))]
pub fn distance(base: u16, length: u16, cell: u64) -> u64
    ensures { result ≡ distance cell (span base length) }
{
    let from = base as u64;
    let end = from + length as u64;
    from.saturating_sub(cell) + cell.saturating_sub(end.saturating_sub(1))
}

// `cells` cells from `first` on run past an end.
#[tactic(auto, unfolding(crate::specs::Cells::beyond))]
pub fn beyond(end: u32, first: u64, cells: u64) -> bool
    ensures { result ≡ beyond end (span first cells) }
{
    (end as u64) < first.saturating_add(cells)
}
