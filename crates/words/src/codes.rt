// Whether a call is turned down by the words that it reads. Reasons are judged in the order of their numbers.
ghost use Rattle.std.specs.Prelude.{◌||◌, ◌≡◌};
ghost use Rattle.capabilities.specs.Lists.{pick};
ghost use Rattle.capabilities.specs.Refusals.{code, first};
ghost use Rattle.words.specs.WordReasons.{unnamed, not_manager, may_not_store, bad_narrow, cell_reasons};
ghost use Rattle.words.specs.WordReasons.{load_reasons, store_reasons, narrow_reasons, grant_reasons, receive_reasons};

use crate::Slot;
use capabilities::capability::{Permission, base_of, length_of, permits};
use capabilities::refusal::Refusal;

// A party's or register's number.
fn unnamed(number: u8) -> bool
    ensures { result ≡ unnamed number }
{
    number >= 8
}

// Of three such numbers.
fn named_check(p: u8, q: u8, r: u8) -> Result<(), Refusal>
    ensures { code result ≡ pick ((unnamed p || unnamed q) || unnamed r) 4 0 }
{
    if unnamed(p) | unnamed(q) | unnamed(r) {
        return Err(Refusal::Unnamed);
    }
    Ok(())
}

// Whether the register that must hold a capability holds one.
fn held_check(tag: bool) -> Result<(), Refusal>
    ensures { code result ≡ pick tag 0 15 }
{
    if tag { Ok(()) } else { Err(Refusal::Untagged) }
}

// What a manager's command asks of the caller.
pub fn manager_check(party: u8) -> Result<(), Refusal>
    ensures { code result ≡ pick (unnamed party) 4 (pick (not_manager party) 5 0) }
{
    if unnamed(party) {
        return Err(Refusal::Unnamed);
    }
    if party != 0 {
        return Err(Refusal::Manager);
    }
    Ok(())
}

fn may_not_store(to: Slot, word: Slot) -> bool
    ensures { result ≡ may_not_store to word }
{
    let store = permits(to.cell, Permission::Store);
    let capability = permits(to.cell, Permission::StoreCapability);
    !store | (word.tag & !capability)
}

fn bad_narrow(word: Slot, off: u16, len: u16) -> bool
    ensures { result ≡ bad_narrow word off len }
{
    let length = length_of(word.cell);
    let base = base_of(word.cell);
    let end = off as u32 + len as u32;
    let start = base as u32 + off as u32;
    ((len == 0) | ((length as u32) < end)) | (65535 < start)
}

// Of the cell at base + off of a word, which shows a place.
#[tactic(auto, unfolding(capabilities::specs::Refusals::first))]
fn cell_check(denied: bool, word: Slot, off: u16, place: Option<usize>) -> Result<(), Refusal>
    ensures { code result ≡ first (cell_reasons denied word off place) }
{
    held_check(word.tag)?;
    if denied {
        return Err(Refusal::Permission);
    }
    if length_of(word.cell) <= off {
        return Err(Refusal::Bounds);
    }
    if place.is_none() {
        return Err(Refusal::NotMapped);
    }
    Ok(())
}

#[tactic(auto, unfolding(capabilities::specs::Refusals::first))]
pub fn load_check(
    party: u8,
    a: u8,
    d: u8,
    from: Slot,
    off: u16,
    place: Option<usize>,
) -> Result<(), Refusal>
    ensures { code result ≡ first (load_reasons party a d from off place) }
{
    named_check(party, a, d)?;
    cell_check(!permits(from.cell, Permission::Load), from, off, place)
}

#[tactic(auto, unfolding(capabilities::specs::Refusals::first))]
pub fn store_check(
    party: u8,
    a: u8,
    s: u8,
    to: Slot,
    from: Slot,
    off: u16,
    place: Option<usize>,
) -> Result<(), Refusal>
    ensures { code result ≡ first (store_reasons party a s to from off place) }
{
    named_check(party, a, s)?;
    cell_check(may_not_store(to, from), to, off, place)
}

#[tactic(auto, unfolding(capabilities::specs::Refusals::first))]
pub fn narrow_check(party: u8, s: u8, d: u8, from: Slot, off: u16, len: u16) -> Result<(), Refusal>
    ensures { code result ≡ first (narrow_reasons party s d from off len) }
{
    named_check(party, s, d)?;
    held_check(from.tag)?;
    let past = length_of(from.cell) <= off;
    if past | bad_narrow(from, off, len) {
        return Err(Refusal::Bounds);
    }
    Ok(())
}

#[tactic(auto, unfolding(capabilities::specs::Refusals::first))]
pub fn grant_check(party: u8, s: u8, to: u8, given: Slot, mail: Slot) -> Result<(), Refusal>
    ensures { code result ≡ first (grant_reasons party s to given mail) }
{
    named_check(party, s, to)?;
    held_check(given.tag)?;
    if mail.tag {
        return Err(Refusal::Mailbox);
    }
    Ok(())
}

#[tactic(auto, unfolding(capabilities::specs::Refusals::first))]
pub fn receive_check(party: u8, d: u8, mail: Slot) -> Result<(), Refusal>
    ensures { code result ≡ first (receive_reasons party d mail) }
{
    if unnamed(party) | unnamed(d) {
        return Err(Refusal::Unnamed);
    }
    if !mail.tag {
        return Err(Refusal::Mailbox);
    }
    Ok(())
}
