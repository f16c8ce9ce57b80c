// The walk over records, whatever they lie as. The survey judges all of them before anything is written.
ghost use Rattle.std.specs.Prelude.{◌≡◌, map, fold, Some, None};
ghost use Rattle.table.specs.declared.Reservation.{Reservation as Read};
ghost use Rattle.table.specs.Numbers.{row_from};
ghost use Rattle.maps.specs.Questions.{response, answer_of, ask_of};
ghost use Rattle.maps.specs.Walks.{tile_with, near_with, seen_over, nothing, listing, list_over};

use crate::steps::{answer_with, goes_on, judge_with, list_with, near_with};
use crate::{Found, Near, Question, Seen};
use capabilities::refusal::Refusal;
use table::Reservation;

// What reads as a reservation.
pub(crate) trait Record {
    ghost reads: { Self → Read };

    fn read(&self) -> Reservation
        ensures { result ≡ reads self.now };
}

impl Record for Reservation {
    ghost reads = { λ r. r };

    fn read(&self) -> Reservation {
        *self
    }
}

impl Record for u64 {
    ghost reads = { row_from };

    fn read(&self) -> Reservation {
        Reservation::from(*self)
    }
}

// Where the records end, if they tile from cell 0 on. A flag beside the end: so each turn needs of the one before nothing but its record, and the
// compiler takes four records at a time.
fn ends<R: Record>(records: &[R]) -> Option<u32>
    ensures { result ≡ fold tile_with (Some 0) (map R.reads records.now) }
{
    let mut tiled = true;
    let mut end: u32 = 0;
    for row in records {
        let row = row.read();
        tiled = tiled & goes_on(end, row);
        end = row.base as u32 + row.length as u32;
    }
    if tiled { Some(end) } else { None }
}

// The nearest of all records, of those that are asked for.
fn nearest<R: Record>(records: &[R], cell: u64, cells: u64) -> Option<Near>
    ensures { result ≡ fold (near_with cell cells) None (map R.reads records.now) }
{
    let mut nearest = None;
    for row in records {
        nearest = near_with(cell, cells, nearest, row.read());
    }
    nearest
}

// What is seen of all records, by a walk for each part: with both in one, each step kept two Options, and a question took half as long again.
pub(crate) fn survey<R: Record>(records: &[R], question: Question) -> Seen
    ensures { result ≡ seen_over question nothing (map R.reads records.now) }
{
    Seen {
        end: ends(records),
        nearest: match question {
            Question::Nearest { cell, cells } => nearest(records, cell, cells),
            Question::Sharing { .. } | Question::Within { .. } => None,
        },
    }
}

// Lists from all records.
fn list<R: Record>(records: &[R], question: Question, bases: &mut [u16]) -> usize
    ensures { listing result bases.new ≡ list_over question (listing 0 bases.old) (map R.reads records.now) }
{
    let mut count: usize = 0;
    for row in records {
        count = list_with(bases, count, question, row.read());
    }
    count
}

// Any of the three questions. A refused one lists nothing.
pub(crate) fn ask_of<R: Record>(
    records: &[R],
    question: Question,
    bases: &mut [u16],
) -> Result<Found, Refusal>
    ensures { response (answer_of result) bases.new ≡ ask_of (map R.reads records.now) question bases.old }
{
    let seen = survey(records, question);
    let many = records.len();
    judge_with(question, seen.end, many, bases.len())?;
    let count = list(records, question, bases);
    Ok(answer_with(seen, count))
}
