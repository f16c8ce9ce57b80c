// Reservations above the page layer: what a revocation makes of a row, and of lent rows and pages.
#![tactic(auto)]

pub mod lent;

ghost use Rattle.std.specs.Prelude.{◌≡◌};
ghost use Rattle.table.specs.Rows.{range_of};
ghost use Rattle.reservations.specs.Revocation.{whole_pages, revoking_taker, revoking_row, collected_row};

use capabilities::Range;
use table::{Reservation, ReservationState};

pub fn range_of(row: Reservation) -> Range
    ensures { result ≡ range_of row }
{
    Range {
        base: row.base,
        length: row.length,
    }
}

pub fn whole_pages(row: Reservation) -> bool
    ensures { result ≡ whole_pages row }
{
    (row.base % 16 == 0) & (row.length % 16 == 0)
}

// The taker of a Taken one stays; an Open one had none, and gets 0.
pub fn revoking_taker(row: Reservation) -> u8
    ensures { result ≡ revoking_taker row }
{
    if row.state == ReservationState::Open {
        0
    } else {
        row.taker
    }
}

pub fn revoking_row(row: Reservation) -> Reservation
    ensures { result ≡ revoking_row row }
{
    Reservation {
        state: ReservationState::Revoking,
        holder: 0,
        taker: revoking_taker(row),
        ..row
    }
}

pub fn collected_row(row: Reservation) -> Reservation
    ensures { result ≡ collected_row row }
{
    Reservation {
        state: ReservationState::Open,
        holder: 0,
        taker: 9,
        ..row
    }
}
