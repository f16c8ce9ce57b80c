// What a page's state says of a frame.
ghost use Rattle.std.specs.Prelude.{◌≡◌};
ghost use Rattle.pages.specs.Entries.{is_mapped, frame_number};

use crate::PageState;

pub fn is_mapped(state: PageState) -> bool
    ensures { result ≡ is_mapped state }
{
    match state {
        PageState::Mapped(_) => true,
        PageState::Unmapped | PageState::Freed => false,
    }
}

// The number of the frame that the page maps, or 256, which is no frame's.
pub fn frame_number(state: PageState) -> usize
    ensures { result ≡ frame_number state }
{
    match state {
        PageState::Mapped(frame) => frame.0 as usize,
        PageState::Unmapped | PageState::Freed => 256,
    }
}
