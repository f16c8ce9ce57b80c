// The same walk over a lent slice of records.
ghost use Rattle.std.specs.Prelude.{◌≡◌, []};
ghost use Rattle.maps.specs.declared.Question.TheVariants.{Sharing, Within, Nearest};
ghost use Rattle.maps.specs.Questions.{response, answer_of, nearest_answer_of, ask_of};

use crate::steps::{base_of, judge_with};
use crate::walk::{ask_of, survey};
use crate::{Found, Question};
use capabilities::refusal::Refusal;
use table::Reservation;

// Any of the three questions.
pub fn ask(records: &[Reservation], question: Question, bases: &mut [u16]) -> Result<Found, Refusal>
    ensures { response (answer_of result) bases.new ≡ ask_of records.now question bases.old }
{
    ask_of(records, question, bases)
}

// The bases of the reservations that share a cell with `cells` cells from `first` on.
pub fn sharing(
    records: &[Reservation],
    first: u64,
    cells: u64,
    bases: &mut [u16],
) -> Result<Found, Refusal>
    ensures { response (answer_of result) bases.new ≡ ask_of records.now (Sharing first cells) bases.old }
{
    ask(records, Question::Sharing { first, cells }, bases)
}

// The bases of those that lie within them.
pub fn within(
    records: &[Reservation],
    first: u64,
    cells: u64,
    bases: &mut [u16],
) -> Result<Found, Refusal>
    ensures { response (answer_of result) bases.new ≡ ask_of records.now (Within first cells) bases.old }
{
    ask(records, Question::Within { first, cells }, bases)
}

// The base of the Open one of at least `cells` cells that is nearest to a cell.
pub fn nearest(records: &[Reservation], cell: u64, cells: u64) -> Result<Option<u16>, Refusal>
    ensures { response (nearest_answer_of result) [] ≡ ask_of records.now (Nearest cell cells) [] }
{
    let seen = survey(records, Question::Nearest { cell, cells });
    judge_with(
        Question::Nearest { cell, cells },
        seen.end,
        records.len(),
        0,
    )?;
    Ok(base_of(seen.nearest))
}
