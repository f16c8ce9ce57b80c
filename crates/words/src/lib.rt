// Words: a cell and its tag, in registers, mailboxes and lent memory; what refuses a call on them, and what becomes of them.
#![tactic(auto)]

ghost use Rattle.std.specs.Prelude.{not, ◌&&◌, ◌≡◌};
ghost use Rattle.capabilities.specs.Capability.{permits};
ghost use Rattle.words.specs.Words.{empty, keep_tag};

use capabilities::capability::{Permission, permits};

pub mod codes;
pub mod collecting;
pub mod memory;
pub mod registers;

// A word: a cell and its tag. Tagged, it is a capability.
#[derive(Clone, Copy, PartialEq, Eq, Debug, Default)]
pub struct Slot {
    pub cell: u64,
    pub tag: bool,
}

// The default, under the name and with the clause that callers cite.
pub fn empty() -> Slot
    ensures { result ≡ empty }
{
    Slot::default()
}

pub fn keep_tag(word: Slot, keep: bool) -> Slot
    ensures { result ≡ keep_tag word keep }
{
    Slot {
        tag: word.tag & keep,
        ..word
    }
}

// 0B: what a load through `from` makes of a word of lent memory, by whether it dies with the revocation that runs.
pub fn loaded(from: Slot, word: Slot, dies: bool) -> Slot
    ensures { result ≡ keep_tag word (permits from.cell 4 && not dies) }
{
    keep_tag(word, permits(from.cell, Permission::LoadCapability) & !dies)
}

// 0C: what a store writes of a word, by whether it dies with the revocation that runs.
pub fn stored(word: Slot, dies: bool) -> Slot
    ensures { result ≡ keep_tag word (not dies) }
{
    keep_tag(word, !dies)
}
