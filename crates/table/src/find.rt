// Which row is meant, and what stands there, in a lent array of numbers.
ghost use Rattle.std.specs.Prelude.{◌≡◌, ◌≤◌, length, get_or, min};
ghost use Rattle.table.specs.Rows.{live};
ghost use Rattle.table.specs.Find.{begins, find_of, next_of, revoking_of, row_of};
ghost use Rattle.table.specs.Searching.{seek_from};
ghost use Rattle.table.specs.Numbers.{row_from, row_code, table_of};
ghost use Rattle.table.specs.Lent.{put_at};

use crate::number::{any_begins, begins_at, revoking_at};
use crate::{LentRows, Reservation};
use capabilities::slices::{at_or, put};

// The number of a row; 0 past the end.
pub fn number_in(rows: &[u64], at: usize) -> u64
    ensures { result ≡ get_or rows.now at 0 }
{
    at_or(rows, at, 0)
}

impl LentRows<'_> {
    // How many rows are in use: a count above the number of rows means all of them.
    #[tactic(auto, using(crate::proofs::Reading::used_length))]
    pub fn used(self) -> usize
        ensures live { result ≡ length (live (table_of self.entry.rows.now self.entry.count)) }
        ensures fits { result ≡ min self.entry.count (length self.entry.rows.now) }
    {
        self.count.min(self.rows.len())
    }

    // For speed, four rows at a time: a row from which on the search finds what it finds from the first one.
    fn skip(self, party: u8, base: u16) -> usize
        ensures from { find_of (table_of self.entry.rows.now self.entry.count) party base ≡ seek_from (begins party base) (table_of self.entry.rows.now self.entry.count) result }
        ensures fits { result ≤ min self.entry.count (length self.entry.rows.now) }
    {
        let rows = self.rows;
        let fours = self.used() / 4;
        for k in 0..fours {
            let i = 4 * k;
            if any_begins(rows[i], rows[i + 1], rows[i + 2], rows[i + 3], party, base) {
                return i;
            }
        }
        4 * fours
    }

    // The reservation that begins at `base` and is held by the party.
    pub fn find(self, party: u8, base: u16) -> Option<usize>
        ensures { result ≡ find_of (table_of self.entry.rows.now self.entry.count) party base }
    {
        // A chain `rows[start..].iter().position(..)` is slower (measured).
        for i in self.skip(party, base)..self.used() {
            if begins_at(self.rows[i], party, base) {
                return Some(i);
            }
        }
        None
    }

    // The Revoking reservation, if one is.
    pub fn revoking(self) -> Option<usize>
        ensures { result ≡ revoking_of (table_of self.entry.rows.now self.entry.count) }
    {
        self.rows[..self.used()]
            .iter()
            .position(|number| revoking_at(*number))
    }

    // The next reservation above.
    #[tactic(auto, unfolding(crate::specs::Find::next_of))]
    pub fn next(self, found: Option<usize>) -> Option<usize>
        ensures { result ≡ next_of (table_of self.entry.rows.now self.entry.count) found }
    {
        let i = found?;
        if i < self.used().saturating_sub(1) {
            Some(i + 1)
        } else {
            None
        }
    }

    // What stands in a row; an unused one's content where there is none.
    #[tactic(auto, using(crate::proofs::Reading::read_at, crate::proofs::Numbers::zero_blank), unfolding(crate::specs::Find::row_of))]
    pub fn row(self, found: Option<usize>) -> Reservation
        ensures { result ≡ row_of (table_of self.entry.rows.now self.entry.count) found }
    {
        match found {
            Some(i) => Reservation::from(number_in(self.rows, i)),
            None => Reservation::from(0),
        }
    }
}

// One row put in place of the old one; where there is none, nothing is written.
#[tactic(auto, unfolding(crate::specs::Lent::put_at))]
pub fn put_row(rows: &mut [u64], found: Option<usize>, row: Reservation)
    ensures { rows.new ≡ put_at rows.old found (row_code row) }
{
    if let Some(i) = found {
        put(rows, i, u64::from(row));
    }
}
