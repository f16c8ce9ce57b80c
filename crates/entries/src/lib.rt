// A call, a command and a run of commands in place; the state by value. No entry relies on its caller: every arrays, lengths, inputs and
// lent memory have their answer.
#![tactic(auto)]

ghost use Rattle.std.specs.Prelude.{◌≡◌};
ghost use Rattle.arrays.specs.Lent.{held, left_in, SameLists};
ghost use Rattle.step.specs.Entries.{step_on, ran_on, command_on};
ghost use Rattle.entries.specs.Fit.{Fit};

use arrays::{Answer, Arrays, Machine};
use calls::Call;
use capabilities::refusal::Refusal;
use formed::formed;
use step::{Ended, command, step};

mod by_value;
pub mod runs;

// The whole state by value.
#[derive(Clone, Copy)]
pub struct State {
    pub arrays: Arrays,
}

// An answer, and the whole state, changed or as given.
#[derive(Clone, Copy)]
pub struct Answered {
    pub answer: Answer,
    pub state: State,
}

// The same of a command, with how many bytes it used.
#[derive(Clone, Copy)]
pub struct Commanded {
    pub answer: Answer,
    pub used: usize,
    pub state: State,
}

// Refusals 1 and 2: the state is well formed, and the lent memory is of its size.
pub fn fit(machine: &Machine<'_>) -> Result<(), Refusal>
    ensures { Fit result (held machine.now) machine.now.cells.now machine.now.tags.now }
{
    if !formed(machine.view()) {
        return Err(Refusal::State);
    }
    if !machine.fits() {
        return Err(Refusal::Memory);
    }
    Ok(())
}

// One call on any arrays and lent memory.
pub fn call_in(machine: &mut Machine<'_>, call: Call) -> Answer
    ensures lists { SameLists machine.new machine.old }
    ensures called { left_in result machine.new ≡ step_on (held machine.old) call machine.old.cells.now machine.old.tags.now }
{
    match fit(machine) {
        Ok(()) => step(machine, call),
        Err(refusal) => Answer::refused(refusal),
    }
}

// One command of bytes on any arrays and lent memory.
pub fn command_in(machine: &mut Machine<'_>, input: &[u8], at: usize) -> Ended
    ensures lists { SameLists machine.new machine.old }
    ensures told { ran_on (left_in result.answer machine.new) result.used ≡ command_on (held machine.old) input.now at machine.old.cells.now machine.old.tags.now }
{
    match fit(machine) {
        Ok(()) => command(machine, input, at),
        Err(refusal) => Ended {
            answer: Answer::refused(refusal),
            used: 0,
        },
    }
}
