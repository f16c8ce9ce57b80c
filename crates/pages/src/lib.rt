// The page layer: virtual pages, frames, and the cells of lent memory behind them.
#![tactic(auto)]

pub mod entry;
pub mod layer;
pub mod lent;
pub mod numbers;
pub mod sound;

// The number of a virtual page. V is at most 256, so a byte holds every one.
#[derive(Clone, Copy, PartialEq, Eq)]
pub struct VirtualPage(pub u8);

// The number of a frame. It is a counter of its own and never stands for a page's.
#[derive(Clone, Copy, PartialEq, Eq)]
pub struct Frame(pub u8);

// A virtual page shows nothing, must not show anything yet, or shows a frame.
#[derive(Clone, Copy, PartialEq, Eq)]
pub enum PageState {
    Unmapped,
    Freed,
    Mapped(Frame),
}

// A frame holds what someone left, holds zeros, or is shown by a page.
#[derive(Clone, Copy, PartialEq, Eq)]
pub enum FrameState {
    Dirty = 0,
    Free = 1,
    Mapped = 2,
}
