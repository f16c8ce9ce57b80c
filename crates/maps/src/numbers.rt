// Records that lie as plain numbers, as the rows of a state do.
ghost use Rattle.std.specs.Prelude.{◌≡◌, map};
ghost use Rattle.table.specs.Numbers.{row_from};
ghost use Rattle.maps.specs.Questions.{response, answer_of, ask_of};

use crate::walk::ask_of;
use crate::{Found, Question};
use capabilities::refusal::Refusal;

// Any of the three questions.
pub fn ask_numbers(rows: &[u64], question: Question, bases: &mut [u16]) -> Result<Found, Refusal>
    ensures { response (answer_of result) bases.new ≡ ask_of (map row_from rows.now) question bases.old }
{
    ask_of(rows, question, bases)
}
