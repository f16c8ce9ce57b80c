// Which reservations lie where: questions about reservation records, apart from the machine. One walk (`walk`) serves records that lie as
// plain numbers (`numbers`) and a lent slice of records (`records`). Of them only what refusal 25 names is judged.
#![tactic(auto)]

pub mod cells;
pub mod numbers;
pub mod records;
mod steps;
mod walk;

// Which reservations share a cell with `cells` cells from `first` on; which lie within them; which Open one of at least `cells` cells is
// nearest to a cell.
#[derive(Clone, Copy)]
pub enum Question {
    Sharing { first: u64, cells: u64 },
    Within { first: u64, cells: u64 },
    Nearest { cell: u64, cells: u64 },
}

// What is found: how many reservations, and the base of the nearest one, which a list has not.
#[derive(Clone, Copy)]
pub struct Found {
    pub count: usize,
    pub nearest: Option<u16>,
}

// The base of an Open reservation, and its distance from the cell that is asked about.
#[derive(Clone, Copy)]
pub struct Near {
    pub base: u16,
    pub distance: u64,
}

// What a walk has seen of the records so far: where they end, if they tile from cell 0 on and end at 4,096 at most; and the nearest of
// the Open ones that are asked for.
#[derive(Clone, Copy)]
pub struct Seen {
    pub end: Option<u32>,
    pub nearest: Option<Near>,
}
