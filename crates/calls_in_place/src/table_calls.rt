// Calls 01 to 04 and 11, on the reservation table. Refusal 4 is judged here, the others by the table's own calls.
ghost use Rattle.std.specs.Prelude.{◌≡◌};
ghost use Rattle.capabilities.specs.Lists.{pick};
ghost use Rattle.capabilities.specs.Refusals.{code};
ghost use Rattle.words.specs.WordReasons.{unnamed};
ghost use Rattle.calls.specs.declared.Call.TheVariants.{Split, Merge, Give, TakeMasked};
ghost use Rattle.arrays.specs.Steps.{told, done};
ghost use Rattle.calls_in_place.specs.Parts.{OnRows, OnTable, OnRowsAndWords};

use crate::word_calls::put_register;
use capabilities::capability::{capability, permitted};
use capabilities::refusal::Refusal;
use table::{operations, rows};
use words::Slot;

// The mask with which 11 is 01.
pub const PLAIN: u8 = 3;

// A party's or a register's number is below 8.
pub(crate) fn known(number: u8) -> Result<(), Refusal>
    ensures { code result ≡ pick (unnamed number) 4 0 }
{
    if number >= 8 {
        return Err(Refusal::Unnamed);
    }
    Ok(())
}

// 11, and by the mask PLAIN 01: the register gets a capability for what was taken, and the length is answered.
#[tactic(auto, using(crate::proofs::Tabling::take_unknown, crate::proofs::Early::first_unknown, crate::proofs::Early::second_unknown))]
#[inline(always)]
pub fn take(
    count: usize,
    rows: &mut [u64],
    words: &mut [u64],
    marks: &mut [u8],
    party: u8,
    base: u16,
    reg: u8,
    mask: u8,
) -> Result<Slot, Refusal>
    ensures { OnRowsAndWords count (told result) rows.old words.old marks.old rows.new words.new marks.new (TakeMasked party base reg mask) }
{
    known(party)?;
    known(reg)?;
    let length = operations::take(rows, count, party, base)?;
    let word = Slot {
        cell: capability(base, length, permitted(mask)),
        tag: true,
    };
    put_register(words, marks, party, reg, word);
    Ok(Slot {
        cell: length as u64,
        tag: false,
    })
}

// 02.
#[tactic(auto, using(crate::proofs::Tabling::split_unknown))]
pub fn split(
    count: &mut usize,
    rows: &mut [u64],
    party: u8,
    base: u16,
    len: u16,
) -> Result<(), Refusal>
    ensures { OnTable count.old (done result) rows.old count.new rows.new (Split party base len) }
{
    known(party)?;
    let moved = rows::split(rows, *count, party, base, len)?;
    *count = moved.count;
    Ok(())
}

// 03.
#[tactic(auto, using(crate::proofs::Tabling::merge_unknown))]
pub fn merge(count: &mut usize, rows: &mut [u64], party: u8, base: u16) -> Result<(), Refusal>
    ensures { OnTable count.old (done result) rows.old count.new rows.new (Merge party base) }
{
    known(party)?;
    let moved = rows::merge(rows, *count, party, base)?;
    *count = moved.count;
    Ok(())
}

// 04.
#[tactic(auto, using(crate::proofs::Tabling::give_unknown, crate::proofs::Early::first_unknown, crate::proofs::Early::second_unknown))]
pub fn give(count: usize, rows: &mut [u64], party: u8, base: u16, to: u8) -> Result<(), Refusal>
    ensures { OnRows count (done result) rows.old rows.new (Give party base to) }
{
    known(party)?;
    known(to)?;
    operations::give(rows, count, party, base, to)
}
