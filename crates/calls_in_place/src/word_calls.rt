// Calls on registers, mailboxes and single words of lent memory.
ghost use Rattle.std.specs.Prelude.{◌+◌, ◌*◌, ◌≡◌, set};
ghost use Rattle.capabilities.specs.Capability.{base_of};
ghost use Rattle.words.specs.Words.{byte_of};
ghost use Rattle.calls.specs.declared.Call.TheVariants.{Load, Store, Narrow, Number, Grant, Receive};
ghost use Rattle.arrays.specs.Steps.{told, done};
ghost use Rattle.calls_in_place.specs.Parts.{OnWords, OnMemory, OnStore, OnMail, dies_in, lookup_in};

use crate::revoked_range;
use arrays::Numbers;
use capabilities::capability::{base_of, narrowed};
use capabilities::refusal::Refusal;
use pages::lent::lookup;
use words::codes::{grant_check, load_check, narrow_check, receive_check, store_check};
use words::memory::word_at;
use words::registers::{put_word, register_in};
use words::{Slot, empty, loaded, stored};

// A party's register gets a word.
pub(crate) fn put_register(words: &mut [u64], marks: &mut [u8], party: u8, reg: u8, word: Slot)
    ensures words_after { words.new ≡ set words.old (8 * party + reg) word.cell }
    ensures marks_after { marks.new ≡ set marks.old (8 * party + reg) (byte_of word.tag) }
{
    let at = 8 * (party as usize) + reg as usize;
    put_word(words, marks, at, word);
}

// 0E: a register gets a number.
#[tactic(auto, using(crate::proofs::Numbering::number_down, crate::proofs::Numbering::number_done))]
pub fn number(
    words: &mut [u64],
    marks: &mut [u8],
    party: u8,
    d: u8,
    value: u64,
) -> Result<(), Refusal>
    ensures { OnWords (done result) words.old marks.old words.new marks.new (Number party d value) }
{
    if !(party < 8) | !(d < 8) {
        return Err(Refusal::Unnamed);
    }
    let word = Slot {
        cell: value,
        tag: false,
    };
    put_register(words, marks, party, d, word);
    Ok(())
}

// Whether a capability dies with the revocation that runs, if one does.
fn dies(nums: Numbers, cell: u64) -> bool
    ensures { result ≡ dies_in nums cell }
{
    capabilities::death::dies(revoked_range(nums), cell)
}

// The place of lent memory that a word addresses at an offset.
fn addressed(nums: Numbers, pages: &[u16], word: Slot, off: u16) -> Option<usize>
    ensures { result ≡ lookup_in nums.v pages.now (base_of word.cell + off) }
{
    lookup(nums.v, pages, base_of(word.cell) as u32 + off as u32)
}

// 0B: a register gets the word that another addresses.
#[tactic(auto, using(crate::proofs::Loading::load_down, crate::proofs::Loading::load_done))]
pub fn load(
    words: &mut [u64],
    marks: &mut [u8],
    nums: Numbers,
    pages: &[u16],
    party: u8,
    a: u8,
    off: u16,
    d: u8,
    cells: &[u64],
    tags: &[u8],
) -> Result<Slot, Refusal>
    ensures { OnMemory nums pages.now (told result) words.old marks.old words.new marks.new cells.now tags.now (Load party a off d) }
{
    let from = register_in(words, marks, party, a);
    let place = addressed(nums, pages, from, off);
    load_check(party, a, d, from, off, place)?;
    let fetched = word_at(cells, tags, place.unwrap_or(0));
    let word = loaded(from, fetched, dies(nums, fetched.cell));
    put_register(words, marks, party, d, word);
    Ok(word)
}

// 0C: the word in a register is written where another addresses.
#[tactic(auto, using(crate::proofs::Storing::store_down, crate::proofs::Storing::store_done))]
pub fn store(
    words: &[u64],
    marks: &[u8],
    nums: Numbers,
    pages: &[u16],
    party: u8,
    a: u8,
    off: u16,
    s: u8,
    cells: &mut [u64],
    tags: &mut [u8],
) -> Result<(), Refusal>
    ensures { OnStore nums pages.now words.now marks.now (done result) cells.old tags.old cells.new tags.new (Store party a off s) }
{
    let to = register_in(words, marks, party, a);
    let from = register_in(words, marks, party, s);
    let place = addressed(nums, pages, to, off);
    store_check(party, a, s, to, from, off, place)?;
    let word = stored(from, dies(nums, from.cell));
    put_word(cells, tags, place.unwrap_or(0), word);
    Ok(())
}

// 0D: a register gets a part of the capability in another.
#[tactic(auto, using(crate::proofs::Narrowing::narrow_down, crate::proofs::Narrowing::narrow_done))]
pub fn narrow(
    words: &mut [u64],
    marks: &mut [u8],
    party: u8,
    s: u8,
    off: u16,
    len: u16,
    mask: u8,
    d: u8,
) -> Result<(), Refusal>
    ensures { OnWords (done result) words.old marks.old words.new marks.new (Narrow party s off len mask d) }
{
    let from = register_in(words, marks, party, s);
    narrow_check(party, s, d, from, off, len)?;
    let word = Slot {
        cell: narrowed(from.cell, off, len, mask),
        tag: true,
    };
    put_register(words, marks, party, d, word);
    Ok(())
}

// 0F: a mailbox that is empty gets the capability in a register.
#[tactic(auto, using(crate::proofs::Mailing::grant_down, crate::proofs::Mailing::grant_done))]
pub fn grant(
    words: &[u64],
    marks: &[u8],
    mail: &mut [u64],
    flags: &mut [u8],
    party: u8,
    s: u8,
    to: u8,
) -> Result<(), Refusal>
    ensures { OnMail (done result) words.now marks.now mail.old flags.old words.now marks.now mail.new flags.new (Grant party s to) }
{
    let from = register_in(words, marks, party, s);
    let here = word_at(mail, flags, to as usize);
    grant_check(party, s, to, from, here)?;
    put_word(mail, flags, to as usize, from);
    Ok(())
}

// 10: a register gets the capability in the mailbox, which is then empty.
#[tactic(auto, using(crate::proofs::Mailing::receive_down, crate::proofs::Mailing::receive_done))]
pub fn receive(
    words: &mut [u64],
    marks: &mut [u8],
    mail: &mut [u64],
    flags: &mut [u8],
    party: u8,
    d: u8,
) -> Result<Slot, Refusal>
    ensures { OnMail (told result) words.old marks.old mail.old flags.old words.new marks.new mail.new flags.new (Receive party d) }
{
    let here = word_at(mail, flags, party as usize);
    receive_check(party, d, here)?;
    put_register(words, marks, party, d, here);
    put_word(mail, flags, party as usize, empty());
    Ok(here)
}
