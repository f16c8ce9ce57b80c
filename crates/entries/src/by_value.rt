// The state by value: it holds the arrays, lends them to a call and hands them back. The machine over them is written out each time: a
// function that lent them would return nine borrows of one value, for which no clause is known, and one that took the call as a closure
// would have to say of it which lists it keeps.
ghost use Rattle.std.specs.Prelude.{◌≡◌, replicate};
ghost use Rattle.arrays.specs.Reading.{arrays};
ghost use Rattle.arrays.specs.Steps.{leaving};
ghost use Rattle.formed.specs.Test.{formed_of};
ghost use Rattle.cost.specs.Asked.{cost_on};
ghost use Rattle.cost.specs.Told.{told};
ghost use Rattle.step.specs.Entries.{step_on, ran_on, command_on};
ghost use Rattle.entries.specs.ByValue.{beginning, start_on};

use crate::{Answered, Commanded, State, call_in, command_in};
use arrays::{Answer, Arrays, Machine, Numbers};
use calls::Call;
use capabilities::refusal::Refusal;
use cost::{Cost, page_cost};
use formed::formed;
use formed::fresh::start_in;

// Arrays of zeros.
fn zeros() -> Arrays
    ensures { result ≡ arrays (record { v = 0; f = 0; count = 0; place = 0; base = 0; length = 0 }) (replicate 64 0) (replicate 64 0) (replicate 8 0) (replicate 8 0) (replicate 64 0) (replicate 256 0) (replicate 128 0) (replicate 32 0) (replicate 8192 0) }
{
    Arrays {
        nums: Numbers::default(),
        words: [0; 64],
        marks: [0; 64],
        mail: [0; 8],
        flags: [0; 8],
        rows: [0; 64],
        pages: [0; 256],
        frames: [0; 128],
        principals: [0; 32],
        counts: [0; 8192],
    }
}

impl State {
    // A fresh state for V and F, or refusal 1 with the all-zero state.
    pub fn start(v: u16, f: u16) -> Answered
        ensures { beginning result.answer result.state.arrays ≡ start_on v f }
    {
        let mut arrays = zeros();
        let mut machine = Machine {
            nums: arrays.nums,
            words: &mut arrays.words,
            marks: &mut arrays.marks,
            mail: &mut arrays.mail,
            flags: &mut arrays.flags,
            rows: &mut arrays.rows,
            pages: &mut arrays.pages,
            frames: &mut arrays.frames,
            principals: &mut arrays.principals,
            counts: &mut arrays.counts,
            cells: &mut [],
            tags: &mut [],
        };
        let started = start_in(&mut machine, v as u64, f as u64);
        arrays.nums = machine.nums;
        let answer = Answer::from(started);
        let state = State { arrays };
        Answered { answer, state }
    }

    pub fn well_formed(self) -> bool
        ensures { result ≡ formed_of self.arrays }
    {
        formed(self.arrays.view())
    }

    // What those who claim a page pay for it.
    pub fn page_cost(self, page: u64) -> Result<Cost, Refusal>
        ensures { told result ≡ cost_on self.arrays page }
    {
        page_cost(self.arrays.view(), page)
    }

    // One call.
    pub fn call(self, call: Call, cells: &mut [u64], tags: &mut [u8]) -> Answered
        ensures { leaving result.answer result.state.arrays cells.new tags.new ≡ step_on self.arrays call cells.old tags.old }
    {
        let mut arrays = self.arrays;
        let mut machine = Machine {
            nums: arrays.nums,
            words: &mut arrays.words,
            marks: &mut arrays.marks,
            mail: &mut arrays.mail,
            flags: &mut arrays.flags,
            rows: &mut arrays.rows,
            pages: &mut arrays.pages,
            frames: &mut arrays.frames,
            principals: &mut arrays.principals,
            counts: &mut arrays.counts,
            cells,
            tags,
        };
        // In parts: an answer kept whole had the state copied twice more, and cleared.
        let Answer { code, number, tag } = call_in(&mut machine, call);
        arrays.nums = machine.nums;
        let state = State { arrays };
        let answer = Answer { code, number, tag };
        Answered { answer, state }
    }

    // One command of bytes.
    pub fn command(self, input: &[u8], at: usize, cells: &mut [u64], tags: &mut [u8]) -> Commanded
        ensures { ran_on (leaving result.answer result.state.arrays cells.new tags.new) result.used ≡ command_on self.arrays input.now at cells.old tags.old }
    {
        let mut arrays = self.arrays;
        let mut machine = Machine {
            nums: arrays.nums,
            words: &mut arrays.words,
            marks: &mut arrays.marks,
            mail: &mut arrays.mail,
            flags: &mut arrays.flags,
            rows: &mut arrays.rows,
            pages: &mut arrays.pages,
            frames: &mut arrays.frames,
            principals: &mut arrays.principals,
            counts: &mut arrays.counts,
            cells,
            tags,
        };
        let ended = command_in(&mut machine, input, at);
        arrays.nums = machine.nums;
        let state = State { arrays };
        Commanded {
            answer: ended.answer,
            used: ended.used,
            state,
        }
    }
}
