// What the calls make of one row or two, and the reasons against them.
ghost use Rattle.std.specs.Prelude.{◌≡◌, not, ◌&&◌, [], ◌∷◌, leb};
ghost use Rattle.capabilities.specs.Refusals.{code, first};
ghost use Rattle.table.specs.Operations.{open_reasons, taken_row, given_row, bad_split, lower_part, joined_taker, joined, alike};
ghost use Rattle.table.specs.Lent.{split_code, merge_code};

use crate::{Reservation, ReservationState};
use capabilities::refusal::Refusal;

// 6 if there is no such reservation, 7 if it is not Open.
#[tactic(auto, unfolding(crate::specs::Operations::open_reasons, capabilities::specs::Refusals::first))]
pub fn check_open(found: Option<usize>, row: Reservation) -> Result<(), Refusal>
    ensures { code result ≡ first (open_reasons found row) }
{
    if found.is_none() {
        return Err(Refusal::NoReservation);
    }
    if row.state != ReservationState::Open {
        return Err(Refusal::ReservationState);
    }
    Ok(())
}

pub fn taken_row(row: Reservation, party: u8) -> Reservation
    ensures { result ≡ taken_row row party }
{
    Reservation {
        state: ReservationState::Taken,
        holder: 0,
        taker: party,
        ..row
    }
}

pub fn given_row(row: Reservation, to: u8) -> Reservation
    ensures { result ≡ given_row row to }
{
    Reservation { holder: to, ..row }
}

pub fn bad_split(row: Reservation, len: u16) -> bool
    ensures { result ≡ bad_split row len }
{
    (len == 0) | (row.length <= len)
}

pub fn lower_part(row: Reservation, len: u16) -> Reservation
    ensures { result ≡ lower_part row len }
{
    Reservation {
        length: len,
        state: ReservationState::Open,
        taker: 9,
        ..row
    }
}

// The taker of two that become one: theirs if it is the same, 8 for several.
pub fn joined_taker(taker: u8, above: u8) -> u8
    ensures { result ≡ joined_taker taker above }
{
    if taker == above { taker } else { 8 }
}

pub fn joined(row: Reservation, above: Reservation) -> Reservation
    ensures { result ≡ joined row above }
{
    let length = (row.length as u32 + above.length as u32) % 65536;
    Reservation {
        length: length as u16,
        taker: joined_taker(row.taker, above.taker),
        ..row
    }
}

// 6 and 7 as for one that has to be Open, 8 if the length does not fit, 9 if there is no room.
#[tactic(auto, unfolding(crate::specs::Operations::open_reasons, capabilities::specs::Refusals::first))]
pub fn check_split(
    found: Option<usize>,
    row: Reservation,
    len: u16,
    count: usize,
) -> Result<(), Refusal>
    ensures { code result ≡ split_code found row len count }
{
    check_open(found, row)?;
    if bad_split(row, len) {
        return Err(Refusal::SplitLength);
    }
    if count >= 64 {
        return Err(Refusal::TableFull);
    }
    Ok(())
}

pub fn alike(a: ReservationState, b: ReservationState) -> bool
    ensures { result ≡ alike a b }
{
    a == b && a != ReservationState::Revoking
}

// 6 if there is no such reservation, 7 if there is none to join it with.
#[tactic(auto, unfolding(capabilities::specs::Refusals::first))]
pub fn check_merge(
    found: Option<usize>,
    next: Option<usize>,
    row: Reservation,
    above: Reservation,
    party: u8,
) -> Result<(), Refusal>
    ensures { code result ≡ merge_code found next row above party }
{
    if found.is_none() {
        return Err(Refusal::NoReservation);
    }
    let mergeable = next.is_some() && above.holder == party && alike(row.state, above.state);
    if !mergeable {
        return Err(Refusal::ReservationState);
    }
    Ok(())
}
