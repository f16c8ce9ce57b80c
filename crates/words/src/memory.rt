// Words in lent memory. Past its end a read answers 0.
ghost use Rattle.std.specs.Prelude.{◌≡◌};
ghost use Rattle.words.specs.Words.{word_at};

use crate::Slot;
use capabilities::slices::at_or;

#[tactic(auto, unfolding(crate::specs::Words::word_at))]
pub fn word_at(cells: &[u64], tags: &[u8], at: usize) -> Slot
    ensures { result ≡ word_at cells.now tags.now at }
{
    Slot {
        cell: at_or(cells, at, 0),
        tag: at_or(tags, at, 0) != 0,
    }
}
