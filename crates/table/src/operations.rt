// Take and give, in place. Each judges its refusals first; a refused one writes nothing.
ghost use Rattle.std.specs.Prelude.{◌≡◌};
ghost use Rattle.capabilities.specs.Refusals.{code};
ghost use Rattle.table.specs.Operations.{give_of};
ghost use Rattle.table.specs.Numbers.{table_of};
ghost use Rattle.table.specs.Numbered.{answered, take_answer, taken_in, given_in};

use crate::LentRows;
use crate::find::put_row;
use crate::parts::{check_open, given_row, taken_row};
use capabilities::refusal::Refusal;

// Open becomes Taken with holder 0, by the party; the length is answered.
pub fn take(rows: &mut [u64], count: usize, party: u8, base: u16) -> Result<u16, Refusal>
    ensures value { answered result ≡ take_answer rows.old count party base }
    ensures rows_after { rows.new ≡ taken_in rows.old count party base }
{
    let table = LentRows { rows, count };
    let found = table.find(party, base);
    let row = table.row(found);
    check_open(found, row)?;
    put_row(rows, found, taken_row(row, party));
    Ok(row.length)
}

// The holder becomes `to`.
pub fn give(rows: &mut [u64], count: usize, party: u8, base: u16, to: u8) -> Result<(), Refusal>
    ensures value { code result ≡ (give_of (table_of rows.old count) party base to).code }
    ensures rows_after { rows.new ≡ given_in rows.old count party base to }
{
    let table = LentRows { rows, count };
    let found = table.find(party, base);
    let row = table.row(found);
    check_open(found, row)?;
    put_row(rows, found, given_row(row, to));
    Ok(())
}
