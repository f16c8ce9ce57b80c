// The reservation table, in a lent array of numbers.
#![tactic(auto)]

pub mod find;
pub mod number;
pub mod operations;
pub mod parts;
pub mod rows;
pub mod tiling;

// A reservation is nobody's yet, lent out as a capability, or being taken back.
#[derive(Clone, Copy, PartialEq, Eq, Debug)]
pub enum ReservationState {
    Open = 0,
    Taken = 1,
    Revoking = 2,
}

// `length` virtual cells from `base` on, the party that holds them, and who took them: a party, 8 for several, 9 for nobody, as
// document 02 numbers them and C reads them (`table:Numbers.row_code`).
#[derive(Clone, Copy)]
pub struct Reservation {
    pub base: u16,
    pub length: u16,
    pub state: ReservationState,
    pub holder: u8,
    pub taker: u8,
}

// What a granted split or merge answers: how many rows are in use then, and how many were written.
#[derive(Clone, Copy)]
pub struct Moved {
    pub count: usize,
    pub writes: usize,
}

// The rows that a call is lent, and how many of them are in use, to look at. What writes rows takes `&mut [u64]` and the count, and makes
// this of them to look: a second struct, of that borrow, would be there for its two fields alone.
#[derive(Clone, Copy)]
pub struct LentRows<'a> {
    pub rows: &'a [u64],
    pub count: usize,
}
