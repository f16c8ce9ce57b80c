// What a server links, as C calls it: each function answers as the one of that name in `cetomuhi` does, and says again what it ensures.
#![tactic(auto)]

ghost use Rattle.std.specs.Prelude.{◌≡◌};
ghost use Rattle.claims.specs.Cost.{cost};
ghost use Rattle.machine.specs.Cost.{costed};
ghost use Rattle.operands.specs.Numbers.{answered, write_numbers, read_numbers};
ghost use Rattle.cetomuhi.specs.Lent.{lent};
ghost use Rattle.cetomuhi.specs.Exports.{size_of, started, start_lent, formed_lent, cost_lent, done, command_lent, reached, commands_lent};

mod questions;

// The number of this boundary; another layout has another one, and so have rules under which a call that was there does something else.
#[unsafe(no_mangle)]
pub extern "C" fn cetomuhi_version() -> u64
    ensures { result ≡ 5 }
{
    cetomuhi::cetomuhi_version()
}

// How many numbers a list of the state has, by its place in the order of the arguments; 10: an answer, 11: a call. 0 above these.
#[unsafe(no_mangle)]
pub extern "C" fn cetomuhi_size(which: u64) -> usize
    ensures { result ≡ size_of which }
{
    cetomuhi::cetomuhi_size(which)
}

// A fresh state for V and F: code 0. V or F out of range: code 1 and the all-zero state. A list of another length: code 1, and nothing
// is written.
#[unsafe(no_mangle)]
pub extern "C" fn cetomuhi_start(
    v: u64,
    f: u64,
    numbers: &mut [u16],
    words: &mut [u64],
    marks: &mut [u8],
    mail: &mut [u64],
    flags: &mut [u8],
    rows: &mut [u64],
    pages: &mut [u16],
    frames: &mut [u8],
    principals: &mut [u64],
    counts: &mut [u16],
) -> u8
    ensures { started result (lent numbers.new words.new marks.new mail.new flags.new rows.new pages.new frames.new principals.new counts.new) ≡ start_lent v f (lent numbers.old words.old marks.old mail.old flags.old rows.old pages.old frames.old principals.old counts.old) }
{
    cetomuhi::cetomuhi_start(
        v, f, numbers, words, marks, mail, flags, rows, pages, frames, principals, counts,
    )
}

// Whether what is lent is a well-formed state.
#[unsafe(no_mangle)]
pub extern "C" fn cetomuhi_well_formed(
    numbers: &[u16],
    words: &[u64],
    marks: &[u8],
    mail: &[u64],
    flags: &[u8],
    rows: &[u64],
    pages: &[u16],
    frames: &[u8],
    principals: &[u64],
    counts: &[u16],
) -> bool
    ensures { result ≡ formed_lent (lent numbers.now words.now marks.now mail.now flags.now rows.now pages.now frames.now principals.now counts.now) }
{
    cetomuhi::cetomuhi_well_formed(
        numbers, words, marks, mail, flags, rows, pages, frames, principals, counts,
    )
}

// What those who claim a page pay for it: its code is answered, and share and remainder are put, 0 and 0 where it is refused.
#[unsafe(no_mangle)]
pub extern "C" fn cetomuhi_page_cost(
    numbers: &[u16],
    words: &[u64],
    marks: &[u8],
    mail: &[u64],
    flags: &[u8],
    rows: &[u64],
    pages: &[u16],
    frames: &[u8],
    principals: &[u64],
    counts: &[u16],
    page: u64,
    share: &mut u64,
    remainder: &mut u64,
) -> u8
    ensures { costed result (cost share.new remainder.new) ≡ cost_lent (lent numbers.now words.now marks.now mail.now flags.now rows.now pages.now frames.now principals.now counts.now) page }
{
    cetomuhi::cetomuhi_page_cost(
        numbers, words, marks, mail, flags, rows, pages, frames, principals, counts, page, share,
        remainder,
    )
}

// One command of the bytes at a place, on any state, memory and input: a run of one, so that a command's code stands in the archive once.
// Its code, number, tag and bytes used are put into the first four answers, and 1 is answered; with room for fewer nothing is done, and 0
// is answered.
#[unsafe(no_mangle)]
pub extern "C" fn cetomuhi_command(
    numbers: &mut [u16],
    words: &mut [u64],
    marks: &mut [u8],
    mail: &mut [u64],
    flags: &mut [u8],
    rows: &mut [u64],
    pages: &mut [u16],
    frames: &mut [u8],
    principals: &mut [u64],
    counts: &mut [u16],
    cells: &mut [u64],
    tags: &mut [u8],
    input: &[u8],
    at: usize,
    answers: &mut [u64],
) -> usize
    ensures { done result (lent numbers.new words.new marks.new mail.new flags.new rows.new pages.new frames.new principals.new counts.new) cells.new tags.new answers.new ≡ command_lent (lent numbers.old words.old marks.old mail.old flags.old rows.old pages.old frames.old principals.old counts.old) input.now at cells.old tags.old answers.old }
{
    cetomuhi::cetomuhi_command(
        numbers, words, marks, mail, flags, rows, pages, frames, principals, counts, cells, tags,
        input, at, answers,
    )
}

// The commands from a place of an input on, as many as there is room for, with four answers each; the state is tested once. Answers how
// many were done, and leaves where the input was reached. They end at the input's end and after a refusal 1 to 3, whose answer counts.
#[unsafe(no_mangle)]
pub extern "C" fn cetomuhi_commands(
    numbers: &mut [u16],
    words: &mut [u64],
    marks: &mut [u8],
    mail: &mut [u64],
    flags: &mut [u8],
    rows: &mut [u64],
    pages: &mut [u16],
    frames: &mut [u8],
    principals: &mut [u64],
    counts: &mut [u16],
    cells: &mut [u64],
    tags: &mut [u8],
    input: &[u8],
    at: &mut usize,
    answers: &mut [u64],
) -> usize
    ensures { reached at.new (done result (lent numbers.new words.new marks.new mail.new flags.new rows.new pages.new frames.new principals.new counts.new) cells.new tags.new answers.new) ≡ commands_lent (lent numbers.old words.old marks.old mail.old flags.old rows.old pages.old frames.old principals.old counts.old) input.now at.old cells.old tags.old answers.old }
{
    cetomuhi::cetomuhi_commands(
        numbers, words, marks, mail, flags, rows, pages, frames, principals, counts, cells, tags,
        input, at, answers,
    )
}

// Writes the call that seven numbers are, the command and its operands, and answers its length. If they are no call, or it does not fit,
// nothing is written and 0 is answered.
#[unsafe(no_mangle)]
pub extern "C" fn cetomuhi_write(numbers: &[u64], out: &mut [u8]) -> usize
    ensures { answered result out.new ≡ write_numbers numbers.now out.old }
{
    cetomuhi::cetomuhi_write(numbers, out)
}

// Reads the call at a place of an input into seven numbers and answers the bytes it used. If no call is there, or there are not seven,
// nothing is written and 0 is answered.
#[unsafe(no_mangle)]
pub extern "C" fn cetomuhi_read(input: &[u8], at: usize, numbers: &mut [u64]) -> usize
    ensures { answered result numbers.new ≡ read_numbers input.now at numbers.old }
{
    cetomuhi::cetomuhi_read(input, at, numbers)
}
