// The state as arrays of numbers: what a call is lent.
#![tactic(auto)]

ghost use Rattle.std.specs.Prelude.{◌≡◌};
ghost use Rattle.arrays.specs.Lent.{held, seen, fits};
ghost use Rattle.arrays.specs.Steps.{answer, told, done};
ghost use Rattle.capabilities.specs.Refusals.{number_of};
ghost use Rattle.words.specs.Words.{empty};

use capabilities::refusal::Refusal;
use words::Slot;

// The small numbers of the state, which lie by value in the machine; with the range that is being revoked: 0 and 0 if
// none is, and no Option, as they lie for C (`arrays:Reading.arrays_of`).
#[derive(Clone, Copy, Default)]
pub struct Numbers {
    pub v: u16,
    pub f: u16,
    pub count: usize,
    pub place: u32,
    pub base: u16,
    pub length: u16,
}

// The whole state: registers and mailboxes as cells and tag bytes; rows, pages, frames and principals as numbers; and the counts of claims,
// 256 a principal.
#[derive(Clone, Copy)]
pub struct Arrays {
    pub nums: Numbers,
    pub words: [u64; 64],
    pub marks: [u8; 64],
    pub mail: [u64; 8],
    pub flags: [u8; 8],
    pub rows: [u64; 64],
    pub pages: [u16; 256],
    pub frames: [u8; 128],
    pub principals: [u64; 32],
    pub counts: [u16; 8192],
}

// A call's answer; code 0 means granted. Three numbers and not a Result: C reads them (`entries:Runs.answer_numbers`), and a line prints them.
#[derive(Clone, Copy)]
pub struct Answer {
    pub code: u8,
    pub number: u64,
    pub tag: bool,
}

impl Answer {
    // Why a call is refused.
    pub fn refused(refusal: Refusal) -> Answer
        ensures { result ≡ answer (number_of refusal) empty }
    {
        Answer {
            code: refusal.number(),
            number: 0,
            tag: false,
        }
    }
}

// The word that a call names, or why it is refused.
impl From<Result<Slot, Refusal>> for Answer {
    ghost from_gives = { λ called answer. answer ≡ told called };

    fn from(called: Result<Slot, Refusal>) -> Answer {
        match called {
            Ok(word) => Answer {
                code: 0,
                number: word.cell,
                tag: word.tag,
            },
            Err(refusal) => Answer::refused(refusal),
        }
    }
}

// The same of a call that names no word.
impl From<Result<(), Refusal>> for Answer {
    ghost from_gives = { λ called answer. answer ≡ done called };

    fn from(called: Result<(), Refusal>) -> Answer {
        Answer {
            code: called.err().map_or(0, Refusal::number),
            number: 0,
            tag: false,
        }
    }
}

// What a call is lent: the lists of the state and the memory behind it, of any lengths, each to be written where it lies.
#[derive(Drop)]
pub struct Machine<'a> {
    pub nums: Numbers,
    pub words: &'a mut [u64],
    pub marks: &'a mut [u8],
    pub mail: &'a mut [u64],
    pub flags: &'a mut [u8],
    pub rows: &'a mut [u64],
    pub pages: &'a mut [u16],
    pub frames: &'a mut [u8],
    pub principals: &'a mut [u64],
    pub counts: &'a mut [u16],
    pub cells: &'a mut [u64],
    pub tags: &'a mut [u8],
}

// The lists of the state, to look at.
#[derive(Clone, Copy)]
pub struct View<'a> {
    pub nums: Numbers,
    pub words: &'a [u64],
    pub marks: &'a [u8],
    pub mail: &'a [u64],
    pub flags: &'a [u8],
    pub rows: &'a [u64],
    pub pages: &'a [u16],
    pub frames: &'a [u8],
    pub principals: &'a [u64],
    pub counts: &'a [u16],
}

impl Arrays {
    pub fn view(&self) -> View<'_>
        ensures { seen result ≡ self.now }
    {
        View {
            nums: self.nums,
            words: &self.words,
            marks: &self.marks,
            mail: &self.mail,
            flags: &self.flags,
            rows: &self.rows,
            pages: &self.pages,
            frames: &self.frames,
            principals: &self.principals,
            counts: &self.counts,
        }
    }
}

impl Machine<'_> {
    // The lists of the state, to look at.
    pub fn view(&self) -> View<'_>
        ensures { seen result ≡ held self.now }
    {
        View {
            nums: self.nums,
            words: self.words,
            marks: self.marks,
            mail: self.mail,
            flags: self.flags,
            rows: self.rows,
            pages: self.pages,
            frames: self.frames,
            principals: self.principals,
            counts: self.counts,
        }
    }

    // Whether the lent memory is 16 F cells and as many tags.
    pub fn fits(&self) -> bool
        ensures { result ≡ fits (held self.now) self.now.cells.now self.now.tags.now }
    {
        let size = 16 * (self.nums.f as usize);
        (self.cells.len() == size) & (self.tags.len() == size)
    }
}
