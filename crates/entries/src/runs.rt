// Many commands in place, with the state tested once: a step keeps it well formed, so that a second test would say nothing new.
ghost use Rattle.std.specs.Prelude.{◌≡◌, ◌≤◌, ◌+◌, length};
ghost use Rattle.arrays.specs.Lent.{held, Ready, SameLists};
ghost use Rattle.lines.specs.Laid.{Laid};
ghost use Rattle.entries.specs.Runs.{answer_numbers, run_of, run_in};

use crate::fit;
use arrays::{Answer, Machine};
use session_rules::ends;
use step::command;

// What a run hands back: how many commands it did, and the place in the input that it reached.
#[derive(Clone, Copy)]
pub struct Ran {
    pub done: usize,
    pub at: usize,
}

// The four numbers of a command's answer.
pub fn numbers(answer: Answer, used: usize) -> [u64; 4]
    ensures { result ≡ answer_numbers answer used }
{
    [
        answer.code as u64,
        answer.number,
        answer.tag as u64,
        used as u64,
    ]
}

// A command's answer, put at a place that has room for it.
fn put_answer(answers: &mut [u64], place: usize, answer: Answer, used: usize)
    requires { place + 4 ≤ length answers.old }
    ensures { Laid (answer_numbers answer used) place answers.old (place + 4) answers.new }
{
    answers[place..place + 4].copy_from_slice(&numbers(answer, used));
}

// The commands from a place on, on well-formed arrays and lent memory of the right size.
fn run(machine: &mut Machine<'_>, input: &[u8], begin: usize, answers: &mut [u64]) -> Ran
    requires { Ready machine.old }
    ensures lists { SameLists machine.new machine.old }
    ensures ran { run_of result.done result.at (held machine.new) machine.new.cells.now machine.new.tags.now answers.new ≡ run_in (held machine.old) input.now begin machine.old.cells.now machine.old.tags.now answers.old }
{
    let room = answers.len() / 4;
    let mut at = begin;
    let mut done: usize = 0;
    // No `for`: the place moves by as many bytes as the command used, and either end may come first.
    while (at < input.len()) & (done < room) {
        let told = command(machine, input, at);
        put_answer(answers, 4 * done, told.answer, told.used);
        at += told.used;
        done += 1;
        if ends(told.answer.code) {
            return Ran { done, at };
        }
    }
    Ran { done, at }
}

// The commands from a place of the input on, on any arrays and lent memory, with the answers put first in a lent buffer: as many as
// it has room for, four numbers each.
pub fn commands_in(machine: &mut Machine<'_>, input: &[u8], at: usize, answers: &mut [u64]) -> Ran
    ensures lists { SameLists machine.new machine.old }
    ensures ran { run_of result.done result.at (held machine.new) machine.new.cells.now machine.new.tags.now answers.new ≡ run_in (held machine.old) input.now at machine.old.cells.now machine.old.tags.now answers.old }
{
    if !((at < input.len()) & (4 <= answers.len())) {
        return Ran { done: 0, at };
    }
    match fit(machine) {
        Ok(()) => {
            // A machine of its own: nothing that is written through a list can then change where the lists lie, so that the loop keeps
            // it in registers. With the lent one a short command takes nearly twice as long.
            let mut own = Machine {
                nums: machine.nums,
                words: &mut *machine.words,
                marks: &mut *machine.marks,
                mail: &mut *machine.mail,
                flags: &mut *machine.flags,
                rows: &mut *machine.rows,
                pages: &mut *machine.pages,
                frames: &mut *machine.frames,
                principals: &mut *machine.principals,
                counts: &mut *machine.counts,
                cells: &mut *machine.cells,
                tags: &mut *machine.tags,
            };
            let ran = run(&mut own, input, at, answers);
            machine.nums = own.nums;
            ran
        }
        Err(refusal) => {
            put_answer(answers, 0, Answer::refused(refusal), 0);
            Ran { done: 1, at }
        }
    }
}
