// Which reservations lie where, asked of records as a state's rows hold them. A refusal writes nothing, not even the numbers.
ghost use Rattle.std.specs.Prelude.{◌≡◌};
ghost use Rattle.maps.specs.declared.Question.TheVariants.{Sharing, Within};
ghost use Rattle.cetomuhi.specs.Maps.{list_answer, list_lent, sited, nearest_lent};

use maps::Question;
use maps::numbers::ask_numbers;

// A list: its code is answered, and its length is put.
fn put_list(rows: &[u64], question: Question, bases: &mut [u16], count: &mut u64) -> u8
    ensures { list_answer result count.new bases.new ≡ list_lent rows.now question count.old bases.old }
{
    match ask_numbers(rows, question, bases) {
        Ok(found) => {
            *count = found.count as u64;
            0
        }
        Err(refusal) => refusal.number(),
    }
}

// The bases of the reservations that share a cell with `cells` cells from `first` on, and how many they are: code 0, or 25.
pub fn cetomuhi_sharing(
    rows: &[u64],
    first: u64,
    cells: u64,
    bases: &mut [u16],
    count: &mut u64,
) -> u8
    ensures { list_answer result count.new bases.new ≡ list_lent rows.now (Sharing first cells) count.old bases.old }
{
    put_list(rows, Question::Sharing { first, cells }, bases, count)
}

// The same of those that lie within these cells.
pub fn cetomuhi_within(
    rows: &[u64],
    first: u64,
    cells: u64,
    bases: &mut [u16],
    count: &mut u64,
) -> u8
    ensures { list_answer result count.new bases.new ≡ list_lent rows.now (Within first cells) count.old bases.old }
{
    put_list(rows, Question::Within { first, cells }, bases, count)
}

// Whether an Open one has at least `cells` cells, and the base of the one nearest to a cell, else 0: code 0, or 25.
pub fn cetomuhi_nearest(rows: &[u64], cell: u64, cells: u64, found: &mut u64, base: &mut u64) -> u8
    ensures { sited result found.new base.new ≡ nearest_lent rows.now cell cells found.old base.old }
{
    match ask_numbers(rows, Question::Nearest { cell, cells }, &mut []) {
        Ok(nearest) => {
            *found = nearest.count as u64;
            *base = nearest.nearest.unwrap_or(0) as u64;
            0
        }
        Err(refusal) => refusal.number(),
    }
}
