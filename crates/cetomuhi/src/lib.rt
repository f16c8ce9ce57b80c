// What a server links: the machine over memory that the server owns. Only numbers and slices of numbers cross the boundary, as C has no
// more, so that each function makes its machine or view of them; every function answers for all bytes, numbers and lengths.
#![tactic(auto)]

ghost use Rattle.std.specs.Prelude.{◌≡◌, ◌++◌, ◌<◌, ◌≤◌, length, drop};
ghost use Rattle.capabilities.specs.Refusals.{code};
ghost use Rattle.words.specs.Words.{empty};
ghost use Rattle.arrays.specs.Lent.{held};
ghost use Rattle.arrays.specs.Steps.{answer as answering};
ghost use Rattle.claims.specs.Cost.{cost};
ghost use Rattle.machine.specs.Cost.{costed};
ghost use Rattle.formed.specs.Test.{formed_of};
ghost use Rattle.entries.specs.Runs.{answer_numbers};
ghost use Rattle.operands.specs.Numbers.{answered, write_numbers, read_numbers};
ghost use Rattle.cetomuhi.specs.Lent.{lent, numbers_over};
ghost use Rattle.cetomuhi.specs.Exports.{size_of, started, start_lent, formed_lent, cost_lent, done, end_code, command_lent, reached, commands_lent};

use crate::numbers::numbers_from;
use arrays::{Answer, Machine, Numbers, View};
use capabilities::refusal::Refusal;
use cost::{Cost, page_cost};
use entries::fit;
use entries::runs::{commands_in, numbers};
use formed::formed;
use formed::fresh::start_in;
use operands::{read_numbers, write_numbers};

mod numbers;
pub mod questions;

// Writes the small numbers over those that are lent.
fn put_numbers(lent: &mut [u16], nums: Numbers)
    requires { (nums.count < 65536) × (nums.place < 65536) }
    ensures { lent.new ≡ numbers_over nums lent.old }
{
    if lent.len() == 6 {
        lent.copy_from_slice(&[
            nums.v,
            nums.f,
            nums.count as u16,
            nums.place as u16,
            nums.base,
            nums.length,
        ]);
    }
}

// What a caller in C is told: 0, or the refusal's number.
fn code_of<T: Drop>(asked: Result<T, Refusal>) -> u8
    ensures { result ≡ code asked }
{
    match asked {
        Ok(_) => 0,
        Err(refusal) => refusal.number(),
    }
}

// The answer of a command where no byte is left, refusal 1, 2 or 3, is put first among the answers.
fn put_end(machine: &Machine<'_>, answers: &mut [u64])
    requires { 4 ≤ length answers.old }
    ensures { answers.new ≡ answer_numbers (answering (end_code (formed_of (held machine.now)) machine.now.nums.f machine.now.cells.now machine.now.tags.now) empty) 0 ++ drop 4 answers.old }
{
    let refusal = fit(machine).err().unwrap_or(Refusal::Command);
    answers[..4].copy_from_slice(&numbers(Answer::refused(refusal), 0));
}

// The number of this boundary; another layout has another one, and so have rules under which a call that was there does something else.
pub fn cetomuhi_version() -> u64
    ensures { result ≡ 5 }
{
    5
}

const SIZES: [usize; 12] = [6, 64, 64, 8, 8, 64, 256, 128, 32, 8192, 4, 7];

// How many numbers a list of the state has, by its place in the order of the arguments; 10: an answer, 11: a call. 0 above these.
pub fn cetomuhi_size(which: u64) -> usize
    ensures { result ≡ size_of which }
{
    if which < 12 {
        let sizes = SIZES;
        return sizes[which as usize];
    }
    0
}

// A fresh state for V and F: code 0. V or F out of range: code 1 and the all-zero state. A list of another length: code 1, and nothing
// is written.
pub fn cetomuhi_start(
    v: u64,
    f: u64,
    numbers: &mut [u16],
    words: &mut [u64],
    marks: &mut [u8],
    mail: &mut [u64],
    flags: &mut [u8],
    rows: &mut [u64],
    pages: &mut [u16],
    frames: &mut [u8],
    principals: &mut [u64],
    counts: &mut [u16],
) -> u8
    ensures { started result (lent numbers.new words.new marks.new mail.new flags.new rows.new pages.new frames.new principals.new counts.new) ≡ start_lent v f (lent numbers.old words.old marks.old mail.old flags.old rows.old pages.old frames.old principals.old counts.old) }
{
    if numbers.len() != 6 {
        return 1;
    }
    let mut machine = Machine {
        nums: numbers_from(numbers),
        words,
        marks,
        mail,
        flags,
        rows,
        pages,
        frames,
        principals,
        counts,
        cells: &mut [],
        tags: &mut [],
    };
    let started = start_in(&mut machine, v, f);
    put_numbers(numbers, machine.nums);
    code_of(started)
}

// Whether what is lent is a well-formed state.
pub fn cetomuhi_well_formed(
    numbers: &[u16],
    words: &[u64],
    marks: &[u8],
    mail: &[u64],
    flags: &[u8],
    rows: &[u64],
    pages: &[u16],
    frames: &[u8],
    principals: &[u64],
    counts: &[u16],
) -> bool
    ensures { result ≡ formed_lent (lent numbers.now words.now marks.now mail.now flags.now rows.now pages.now frames.now principals.now counts.now) }
{
    let view = View {
        nums: numbers_from(numbers),
        words,
        marks,
        mail,
        flags,
        rows,
        pages,
        frames,
        principals,
        counts,
    };
    formed(view)
}

// What those who claim a page pay for it: its code is answered, and share and remainder are put, 0 and 0 where it is refused.
pub fn cetomuhi_page_cost(
    numbers: &[u16],
    words: &[u64],
    marks: &[u8],
    mail: &[u64],
    flags: &[u8],
    rows: &[u64],
    pages: &[u16],
    frames: &[u8],
    principals: &[u64],
    counts: &[u16],
    page: u64,
    share: &mut u64,
    remainder: &mut u64,
) -> u8
    ensures { costed result (cost share.new remainder.new) ≡ cost_lent (lent numbers.now words.now marks.now mail.now flags.now rows.now pages.now frames.now principals.now counts.now) page }
{
    let view = View {
        nums: numbers_from(numbers),
        words,
        marks,
        mail,
        flags,
        rows,
        pages,
        frames,
        principals,
        counts,
    };
    let asked = page_cost(view, page);
    let cost = asked.unwrap_or(Cost {
        share: 0,
        remainder: 0,
    });
    *share = cost.share as u64;
    *remainder = cost.remainder as u64;
    code_of(asked)
}

// One command of the bytes at a place, on any state, memory and input: a run of one, so that a command's code stands in the archive once.
// Its code, number, tag and bytes used are put into the first four answers, and 1 is answered; with room for fewer nothing is done, and 0
// is answered.
pub fn cetomuhi_command(
    numbers: &mut [u16],
    words: &mut [u64],
    marks: &mut [u8],
    mail: &mut [u64],
    flags: &mut [u8],
    rows: &mut [u64],
    pages: &mut [u16],
    frames: &mut [u8],
    principals: &mut [u64],
    counts: &mut [u16],
    cells: &mut [u64],
    tags: &mut [u8],
    input: &[u8],
    at: usize,
    answers: &mut [u64],
) -> usize
    ensures { done result (lent numbers.new words.new marks.new mail.new flags.new rows.new pages.new frames.new principals.new counts.new) cells.new tags.new answers.new ≡ command_lent (lent numbers.old words.old marks.old mail.old flags.old rows.old pages.old frames.old principals.old counts.old) input.now at cells.old tags.old answers.old }
{
    if answers.len() < 4 {
        return 0;
    }
    let mut machine = Machine {
        nums: numbers_from(numbers),
        words,
        marks,
        mail,
        flags,
        rows,
        pages,
        frames,
        principals,
        counts,
        cells,
        tags,
    };
    if at < input.len() {
        let ran = commands_in(&mut machine, input, at, &mut answers[..4]);
        put_numbers(numbers, machine.nums);
        return ran.done;
    }
    put_end(&machine, answers);
    1
}

// The commands from a place of an input on, as many as there is room for, with four answers each; the state is tested once. Answers how
// many were done, and leaves where the input was reached. They end at the input's end and after a refusal 1 to 3, whose answer counts.
pub fn cetomuhi_commands(
    numbers: &mut [u16],
    words: &mut [u64],
    marks: &mut [u8],
    mail: &mut [u64],
    flags: &mut [u8],
    rows: &mut [u64],
    pages: &mut [u16],
    frames: &mut [u8],
    principals: &mut [u64],
    counts: &mut [u16],
    cells: &mut [u64],
    tags: &mut [u8],
    input: &[u8],
    at: &mut usize,
    answers: &mut [u64],
) -> usize
    ensures { reached at.new (done result (lent numbers.new words.new marks.new mail.new flags.new rows.new pages.new frames.new principals.new counts.new) cells.new tags.new answers.new) ≡ commands_lent (lent numbers.old words.old marks.old mail.old flags.old rows.old pages.old frames.old principals.old counts.old) input.now at.old cells.old tags.old answers.old }
{
    let mut machine = Machine {
        nums: numbers_from(numbers),
        words,
        marks,
        mail,
        flags,
        rows,
        pages,
        frames,
        principals,
        counts,
        cells,
        tags,
    };
    let begin = *at;
    let ran = commands_in(&mut machine, input, begin, answers);
    put_numbers(numbers, machine.nums);
    *at = ran.at;
    ran.done
}

// Writes the call that seven numbers are, the command and its operands, and answers its length. If they are no call, or it does not fit,
// nothing is written and 0 is answered.
pub fn cetomuhi_write(numbers: &[u64], out: &mut [u8]) -> usize
    ensures { answered result out.new ≡ write_numbers numbers.now out.old }
{
    write_numbers(numbers, out)
}

// Reads the call at a place of an input into seven numbers and answers the bytes it used. If no call is there, or there are not seven,
// nothing is written and 0 is answered.
pub fn cetomuhi_read(input: &[u8], at: usize, numbers: &mut [u64]) -> usize
    ensures { answered result numbers.new ≡ read_numbers input.now at numbers.old }
{
    read_numbers(input, at, numbers)
}
