// The sweep over lent memory.
#![tactic(auto)]

pub mod frames;

// What a granted sweep answers: the cells left and the place reached.
#[derive(Clone, Copy, PartialEq, Eq, Debug)]
pub struct Swept {
    pub left: u32,
    pub place: u32,
}
