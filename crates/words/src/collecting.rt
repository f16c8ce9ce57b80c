// What a collect makes of the words in registers and mailboxes.
ghost use Rattle.std.specs.Prelude.{not, ◌&&◌, map, ◌≡◌};
ghost use Rattle.capabilities.specs.Lists.{pick};
ghost use Rattle.words.specs.Words.{empty, keep_tag};
ghost use Rattle.words.specs.Lent.{collected_mark, collected_cell, collected_marks, collected_mail};

use crate::{Slot, empty, keep_tag};
use capabilities::Range;
use capabilities::death::dies;

// A tag byte, 0 if the cell beside it dies. A product and no branch, so that a loop over it stays fast.
fn collected_mark(range: Range, cell: u64, mark: u8) -> u8
    ensures { result ≡ collected_mark range cell mark }
{
    let gone = dies(range, cell);
    mark * u8::from(!gone)
}

// A mailbox's cell, 0 if it is a capability that dies.
fn collected_cell(range: Range, flag: u8, cell: u64) -> u64
    ensures { result ≡ collected_cell range flag cell }
{
    let here = dies(range, cell);
    let gone = !(flag == 0) & here;
    cell * u64::from(!gone)
}

// The registers' tags: 0 where the register's base lies in the range.
pub fn collect_words(range: Range, words: &[u64], marks: &mut [u8])
    ensures { marks.new ≡ collected_marks range words.now marks.old }
{
    // By index: after a zip over `iter_mut` a proof knows no element.
    for i in 0..words.len().min(marks.len()) {
        let mark = marks[i];
        marks[i] = collected_mark(range, words[i], mark);
    }
}

// The mailboxes: cell and tag 0 where a capability has its base in the range.
pub fn collect_mail(range: Range, mail: &mut [u64], flags: &mut [u8])
    ensures mail_after { mail.new ≡ collected_mail range mail.old flags.old }
    ensures flags_after { flags.new ≡ collected_marks range mail.old flags.old }
{
    for i in 0..mail.len().min(flags.len()) {
        let (cell, flag) = (mail[i], flags[i]);
        mail[i] = collected_cell(range, flag, cell);
        flags[i] = collected_mark(range, cell, flag);
    }
}
