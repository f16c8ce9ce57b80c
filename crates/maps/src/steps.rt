// One step of each walk, and what is made of what the walks have seen.
ghost use Rattle.std.specs.Prelude.{◌≡◌};
ghost use Rattle.maps.specs.Cells.{span};
ghost use Rattle.table.specs.Rows.{range_of};
ghost use Rattle.maps.specs.Questions.{is_listed, bad_list, bad_question};
ghost use Rattle.maps.specs.Walks.{goes_on, near_with, judge_with, listing, list_with, base_of, answer_with};

use crate::cells::{beyond, distance, lies_within, shares};
use crate::{Found, Near, Question, Seen};
use capabilities::refusal::Refusal;
use table::{Reservation, ReservationState};

// Whether a record goes on where those before it end, has a cell, and ends at 4,096 at most.
pub(crate) fn goes_on(from: u32, row: Reservation) -> bool
    ensures { result ≡ goes_on from row }
{
    let base = row.base as u32;
    (base == from) & ((0 < row.length) & (base + row.length as u32 <= 4096))
}

// One record more, of the Open ones of at least `cells` cells: the nearer one is kept, of two at one distance the lower.
pub(crate) fn near_with(
    cell: u64,
    cells: u64,
    nearest: Option<Near>,
    row: Reservation,
) -> Option<Near>
    ensures { result ≡ near_with cell cells nearest row }
{
    let base = row.base;
    let away = distance(base, row.length, cell);
    let wanted = (row.state == ReservationState::Open) & (cells <= row.length as u64);
    let closer = match nearest {
        Some(near) => (away, base) < (near.distance, near.base),
        None => true,
    };
    if wanted & closer {
        return Some(Near {
            base,
            distance: away,
        });
    }
    nearest
}

fn bad_list(end: u32, first: u64, cells: u64, room: usize) -> bool
    ensures { result ≡ bad_list end (span first cells) room }
{
    ((cells == 0) | beyond(end, first, cells)) | (room < 64)
}

#[tactic(auto, unfolding(crate::specs::Questions::bad_question))]
fn bad_question(question: Question, end: u32, room: usize) -> bool
    ensures { result ≡ bad_question question end room }
{
    match question {
        Question::Sharing { first, cells } | Question::Within { first, cells } => {
            bad_list(end, first, cells, room)
        }
        Question::Nearest { cells, .. } => cells == 0,
    }
}

// Refusal 25, by where the records end.
pub(crate) fn judge_with(
    question: Question,
    end: Option<u32>,
    records: usize,
    room: usize,
) -> Result<(), Refusal>
    ensures { result ≡ judge_with question end records room }
{
    let end = end.ok_or(Refusal::Question)?;
    let sized = (records == 0) | (64 < records);
    if sized | bad_question(question, end, room) {
        return Err(Refusal::Question);
    }
    Ok(())
}

#[tactic(auto, unfolding(crate::specs::Questions::is_listed))]
fn is_listed(question: Question, base: u16, length: u16) -> bool
    ensures { result ≡ is_listed question (span base length) }
{
    match question {
        Question::Sharing { first, cells } => shares(base, length, first, cells),
        Question::Within { first, cells } => lies_within(base, length, first, cells),
        Question::Nearest { .. } => false,
    }
}

// One record more: its base comes behind those that are listed, if it is asked for.
pub(crate) fn list_with(
    bases: &mut [u16],
    count: usize,
    question: Question,
    row: Reservation,
) -> usize
    ensures { listing result bases.new ≡ list_with question (listing count bases.old) row }
{
    if is_listed(question, row.base, row.length) & (count < bases.len()) {
        bases[count] = row.base;
        return count + 1;
    }
    count
}

pub(crate) fn base_of(nearest: Option<Near>) -> Option<u16>
    ensures { result ≡ base_of nearest }
{
    nearest.map(|near| near.base)
}

// What is found, from a list's length and the nearest one.
pub(crate) fn answer_with(seen: Seen, count: usize) -> Found
    ensures { result ≡ answer_with seen count }
{
    Found {
        count: if seen.nearest.is_some() { 1 } else { count },
        nearest: base_of(seen.nearest),
    }
}
