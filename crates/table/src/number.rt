// One reservation as a number.
ghost use Rattle.std.specs.Prelude.{◌≡◌};
ghost use Rattle.table.specs.Rows.{state_number, is_revoking};
ghost use Rattle.table.specs.Find.{begins};
ghost use Rattle.table.specs.Searching.{any_of};
ghost use Rattle.table.specs.Numbers.{state_from, row_from, row_code, written};

use crate::{Reservation, ReservationState};

// Every number reads as a state; only 0, 1 and 2 are written.
impl From<u64> for ReservationState {
    ghost from_gives = { λ number state. state ≡ state_from number };

    #[tactic(auto, unfolding(crate::specs::Numbers::state_from))]
    fn from(number: u64) -> ReservationState {
        match number {
            0 => ReservationState::Open,
            1 => ReservationState::Taken,
            _ => ReservationState::Revoking,
        }
    }
}

// The reservation that a number reads as.
impl From<u64> for Reservation {
    ghost from_gives = { λ number row. row ≡ row_from number };

    #[tactic(auto, unfolding(crate::specs::Numbers::row_from))]
    fn from(number: u64) -> Reservation {
        Reservation {
            base: (number % 65536) as u16,
            length: (number / 65536 % 65536) as u16,
            state: ReservationState::from(number / 4294967296 % 256),
            holder: (number / 1099511627776 % 256) as u8,
            taker: (number / 281474976710656 % 256) as u8,
        }
    }
}

// The number that a reservation is written as.
impl From<Reservation> for u64 {
    ghost from_gives = { λ row number. number ≡ row_code row };

    #[tactic(auto, unfolding(crate::specs::Numbers::row_code))]
    fn from(row: Reservation) -> u64 {
        let range = row.base as u64 + 65536 * (row.length as u64);
        let held = range + 4294967296 * (row.state as u64) + 1099511627776 * (row.holder as u64);
        held + 281474976710656 * (row.taker as u64)
    }
}

#[tactic(auto, unfolding(crate::specs::Numbers::written))]
pub fn is_written(number: u64) -> bool
    ensures { result ≡ written number }
{
    (number / 4294967296 % 256 <= 2) & (number < 72057594037927936)
}

// The reservation begins at `base` and is held by the party: its bits 0 to 15 and 40 to 47, both at once.
#[tactic(auto, using(crate::proofs::Numbers::begins_test), unfolding(crate::specs::Numbers::row_from))]
pub fn begins_at(number: u64, party: u8, base: u16) -> bool
    ensures { result ≡ begins party base (row_from number) }
{
    number & 280375465148415 == base as u64 + 1099511627776 * (party as u64)
}

// One of four begins so.
pub fn any_begins(a: u64, b: u64, c: u64, d: u64, party: u8, base: u16) -> bool
    ensures { result ≡ any_of (begins party base) (row_from a) (row_from b) (row_from c) (row_from d) }
{
    begins_at(a, party, base)
        | begins_at(b, party, base)
        | begins_at(c, party, base)
        | begins_at(d, party, base)
}

#[tactic(auto, using(crate::proofs::Numbers::revoking_test), unfolding(crate::specs::Numbers::row_from))]
pub fn revoking_at(number: u64) -> bool
    ensures { result ≡ is_revoking (row_from number).state }
{
    1 < number / 4294967296 % 256
}
