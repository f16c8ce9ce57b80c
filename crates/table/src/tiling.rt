// Whether lent numbers are a well-formed table.
ghost use Rattle.std.specs.Prelude.{◌≡◌, ◌&&◌, take, drop};
ghost use Rattle.table.specs.Rows.{live};
ghost use Rattle.table.specs.Tiling.{follows, tiles, taker_sound, takers_sound, revokings};
ghost use Rattle.table.specs.Numbers.{row_from, table_of, written, all_written};
ghost use Rattle.table.specs.Sound.{sound_numbers, all_zero, top_sound};

use crate::LentRows;
use crate::number::revoking_at;

// The bits from 32 up are those of a sound reservation: Taken or Revoking with holder 0 and a taker of 0 to 8, or Open with a holder of
// 0 to 7 and taker 9.
fn top_sound(top: u64) -> bool
    ensures { result ≡ top_sound top }
{
    let low = top % 65536;
    (((low == 1) | (low == 2)) & (top / 65536 <= 8))
        | (((top % 256 == 0) & (low < 2048)) & (top / 65536 == 9))
}

// The number is one of a sound reservation that begins at a cell.
#[tactic(auto, using(crate::proofs::Testing::follows_test))]
fn follows_at(number: u64, from: u32) -> bool
    ensures { result ≡ ((follows from (row_from number) && taker_sound (row_from number)) && written number) }
{
    ((number % 65536 == from as u64) & (0 < number / 65536 % 65536))
        & top_sound(number / 4294967296)
}

impl LentRows<'_> {
    // The reservations tile the cells from 0 up to an end, and their takers fit.
    fn tiled(self, end: u32) -> bool
        ensures { result ≡ ((tiles 0 end (live (table_of self.entry.rows.now self.entry.count)) && takers_sound (live (table_of self.entry.rows.now self.entry.count))) && all_written (take self.entry.count self.entry.rows.now)) }
    {
        let mut from: u32 = 0;
        for &number in &self.rows[..self.used()] {
            if !follows_at(number, from) {
                return false;
            }
            from = (number % 65536) as u32 + (number / 65536 % 65536) as u32;
        }
        from == end
    }

    // How many reservations are Revoking. A sum, which is vectorised: `filter` and `count` are slower (measured).
    fn revokings(self) -> usize
        ensures { result ≡ revokings (live (table_of self.entry.rows.now self.entry.count)) }
    {
        let mut many: usize = 0;
        for &number in &self.rows[..self.used()] {
            many += revoking_at(number) as usize;
        }
        many
    }

    // The numbers at the count and above are 0.
    fn rest_zero(self) -> bool
        ensures { result ≡ all_zero (drop self.entry.count self.entry.rows.now) }
    {
        let mut zero = true;
        for &number in &self.rows[self.used()..] {
            zero = zero & (number == 0);
        }
        zero
    }

    // The table's part of a well-formed state.
    pub fn well_formed(self, cells: u32) -> bool
        ensures { result ≡ sound_numbers cells self.entry.rows.now self.entry.count }
    {
        let sized = (self.rows.len() == 64) & ((0 < self.count) & (self.count <= 64));
        (sized & self.tiled(cells)) & (self.rest_zero() & (self.revokings() <= 1))
    }
}
