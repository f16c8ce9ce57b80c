// Registers and mailboxes as C lends them: cells in one slice, tags in another.
ghost use Rattle.std.specs.Prelude.{◌≡◌, set};
ghost use Rattle.capabilities.specs.Lists.{each};
ghost use Rattle.words.specs.Words.{byte_of};
ghost use Rattle.words.specs.Words.{mailbox_sound};
ghost use Rattle.words.specs.Lent.{slots_of, register_in, bit};

use crate::memory::word_at;
use crate::{Slot, empty};
use capabilities::slices::put;

#[tactic(auto, unfolding(crate::specs::Lent::register_in))]
pub fn register_in(words: &[u64], marks: &[u8], party: u8, reg: u8) -> Slot
    ensures { result ≡ register_in words.now marks.now party reg }
{
    if (party < 8) & (reg < 8) {
        let at = 8 * (party as usize) + reg as usize;
        return word_at(words, marks, at);
    }
    empty()
}

// Past the end it changes nothing.
pub fn put_word(words: &mut [u64], marks: &mut [u8], at: usize, word: Slot)
    ensures words_after { words.new ≡ set words.old at word.cell }
    ensures marks_after { marks.new ≡ set marks.old at (byte_of word.tag) }
{
    put(words, at, word.cell);
    put(marks, at, u8::from(word.tag));
}

// Whether every byte is 0 or 1. No early exit, so that the loop takes many bytes at once.
pub fn bits(tags: &[u8]) -> bool
    ensures { result ≡ each bit 0 tags.now }
{
    let mut all = true;
    for tag in tags {
        all &= *tag <= 1;
    }
    all
}

// Whether every mailbox that is untagged has cell 0. No early exit either.
pub fn mailboxes_sound(mail: &[u64], flags: &[u8]) -> bool
    ensures { result ≡ each mailbox_sound 0 (slots_of mail.now flags.now) }
{
    let mut sound = true;
    for (cell, flag) in mail.iter().zip(flags) {
        sound &= (*flag != 0) | (*cell == 0);
    }
    sound
}
