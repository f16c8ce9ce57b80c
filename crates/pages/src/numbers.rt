// How pages and frames lie in memory: one number an entry.
ghost use Rattle.std.specs.Prelude.{◌≡◌};
ghost use Rattle.pages.specs.Numbers.{page_from, page_code, frame_from, frame_code};

use crate::{Frame, FrameState, PageState};

// The state that a page's number reads as.
impl From<u16> for PageState {
    ghost from_gives = { λ number state. state ≡ page_from number };

    #[tactic(auto, unfolding(crate::specs::Numbers::page_from))]
    fn from(number: u16) -> PageState {
        match number {
            0 => PageState::Unmapped,
            1 => PageState::Freed,
            _ => PageState::Mapped(Frame(((number - 2) % 256) as u8)),
        }
    }
}

// The state that a frame's number reads as.
impl From<u8> for FrameState {
    ghost from_gives = { λ number state. state ≡ frame_from number };

    #[tactic(auto, unfolding(crate::specs::Numbers::frame_from))]
    fn from(number: u8) -> FrameState {
        match number {
            0 => FrameState::Dirty,
            1 => FrameState::Free,
            _ => FrameState::Mapped,
        }
    }
}

impl PageState {
    #[tactic(auto, unfolding(crate::specs::Numbers::page_code))]
    pub fn number(self) -> u16
        ensures { result ≡ page_code self }
    {
        match self {
            PageState::Unmapped => 0,
            PageState::Freed => 1,
            PageState::Mapped(frame) => 2 + frame.0 as u16,
        }
    }
}

impl FrameState {
    #[tactic(auto, unfolding(crate::specs::Numbers::frame_code))]
    pub fn number(self) -> u8
        ensures { result ≡ frame_code self }
    {
        self as u8
    }
}
