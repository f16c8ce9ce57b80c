// Split and merge, which move rows within the table: each row is written once, in place, and the writes are counted.
ghost use Rattle.std.specs.Prelude.{◌≡◌, ◌+◌, ◌-◌, ◌<◌, ◌≤◌, length, set};
ghost use Rattle.table.specs.Operations.{upper_part};
ghost use Rattle.table.specs.Lent.{raised, lowered, spread_at, gather_at};
ghost use Rattle.table.specs.Numbered.{moved, split_answer, split_in, merge_answer, merged_in};

use crate::parts::{check_merge, check_split, joined, lower_part};
use crate::{LentRows, Moved, Reservation, ReservationState};
use capabilities::refusal::Refusal;

fn upper_part(row: Reservation, len: u16) -> Reservation
    requires { len ≤ row.length }
    ensures { result ≡ upper_part row len }
{
    let base = (row.base as u32 + len as u32) % 65536;
    Reservation {
        base: base as u16,
        length: row.length - len,
        state: ReservationState::Open,
        taker: 9,
        ..row
    }
}

// The one store to a row in this file: every write goes through here, and adds 1 to the count that it is handed
// (document 02; tests/writes.py), so that no `copy_within` moves rows.
fn write_row(rows: &mut [u64], at: usize, number: u64, writes: usize) -> usize
    requires { (at < length rows.old) × (writes ≤ length rows.old) }
    ensures { (rows.new ≡ set rows.old at number) × (result ≡ writes + 1) }
{
    rows[at] = number;
    writes + 1
}

// The rows from `from` on, below row n, move up by one, from the top down.
fn move_up(rows: &mut [u64], from: usize, n: usize) -> usize
    requires { (from ≤ n) × (n < length rows.old) }
    ensures { (rows.new ≡ raised rows.old from n) × (result ≡ n - from) }
{
    let mut writes: usize = 0;
    for j in (from..n).rev() {
        let below = rows[j];
        writes = write_row(rows, j + 1, below, writes);
    }
    writes
}

// The rows above `from`, up to the last one, move down by one, from the bottom up.
fn move_down(rows: &mut [u64], from: usize, last: usize) -> usize
    requires { (from ≤ last) × (last < length rows.old) }
    ensures { (rows.new ≡ lowered rows.old from last) × (result ≡ last - from) }
{
    let mut writes: usize = 0;
    for j in from..last {
        let above = rows[j + 1];
        writes = write_row(rows, j, above, writes);
    }
    writes
}

// One row more: of n rows those above row i move up, and the two parts stand at i and i + 1.
fn spread(rows: &mut [u64], n: usize, i: usize, lower: u64, upper: u64) -> usize
    requires { (i < n) × (n < length rows.old) }
    ensures { (rows.new ≡ spread_at rows.old n i lower upper) × (result ≡ n - i + 1) }
{
    let mut writes = move_up(rows, i + 1, n);
    writes = write_row(rows, i + 1, upper, writes);
    writes = write_row(rows, i, lower, writes);
    writes
}

// One row less: of n rows those above i + 1 move down, the last one's is unused, and the joined one stands at i.
fn gather(rows: &mut [u64], n: usize, i: usize, joined: u64) -> usize
    requires { (i + 1 < n) × (n ≤ length rows.old) }
    ensures { (rows.new ≡ gather_at rows.old n i joined 0) × (result ≡ n - i) }
{
    let last = n - 1;
    let mut writes = move_down(rows, i + 1, last);
    writes = write_row(rows, last, 0, writes);
    writes = write_row(rows, i, joined, writes);
    writes
}

// One Open reservation becomes two, the lower of `len` cells.
pub fn split(
    rows: &mut [u64],
    count: usize,
    party: u8,
    base: u16,
    len: u16,
) -> Result<Moved, Refusal>
    ensures value { moved count result ≡ split_answer rows.old count party base len }
    ensures rows_after { rows.new ≡ split_in rows.old count party base len }
{
    if rows.len() != 64 {
        return Err(Refusal::State);
    }
    let table = LentRows { rows, count };
    let found = table.find(party, base);
    let row = table.row(found);
    check_split(found, row, len, count)?;
    let lower = u64::from(lower_part(row, len));
    let upper = u64::from(upper_part(row, len));
    let writes = spread(rows, count, found.unwrap_or(0), lower, upper);
    Ok(Moved {
        count: count + 1,
        writes,
    })
}

// The reservation and the next one above become one.
pub fn merge(rows: &mut [u64], count: usize, party: u8, base: u16) -> Result<Moved, Refusal>
    ensures value { moved count result ≡ merge_answer rows.old count party base }
    ensures rows_after { rows.new ≡ merged_in rows.old count party base }
{
    if rows.len() != 64 {
        return Err(Refusal::State);
    }
    let table = LentRows { rows, count };
    let found = table.find(party, base);
    let above = table.next(found);
    let row = table.row(found);
    let other = table.row(above);
    check_merge(found, above, row, other, party)?;
    let n = table.used();
    let one = u64::from(joined(row, other));
    let writes = gather(rows, n, found.unwrap_or(0), one);
    Ok(Moved {
        count: n - 1,
        writes,
    })
}
