// What every layer shares: capabilities as numbers, ranges of virtual cells, and refusals in their order.
#![tactic(auto)]

pub mod capability;
pub mod death;
pub mod ranges;
pub mod refusal;
pub mod slices;

// A range of virtual cells: `length` of them from `base` on.
#[derive(Clone, Copy)]
pub struct Range {
    pub base: u16,
    pub length: u16,
}
