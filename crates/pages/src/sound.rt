// Whether lent pages and frames are a well-formed layer: one pass over the pages and one over the frames.
ghost use Rattle.std.specs.Prelude.{◌≤◌, true, ◌&&◌, ◌≡◌, map, leb, eqb, length, replicate};
ghost use Rattle.capabilities.specs.Lists.{pick, each};
ghost use Rattle.pages.specs.Layer.{Tally};
ghost use Rattle.pages.specs.Numbers.{page_in, layer_sound};
ghost use Rattle.pages.specs.Sound.{shows_below, is_counted};

use crate::layer::in_range;
use crate::{FrameState, PageState};

// Whether all are `zero`, as a number at V or F and above must be. It asks all, so that the compiler takes several at once: `all` would stop
// early.
#[tactic(auto, unfolding(capabilities::specs::Lists::each))]
fn unused<T: PartialEq + Copy>(xs: &[T], zero: T) -> bool
    ensures { result ≡ each (λ i x. T.eq x zero) 0 xs.now }
{
    let mut unused = true;
    for x in xs {
        unused = unused & (*x == zero);
    }
    unused
}

// Whether each page shows, if any, a frame below F; and how many show each frame. It stops at a frame that the tally has no place for.
fn counts(f: u16, pages: &[u16], tally: &mut [u16; 128]) -> bool
    requires f_bound { f ≤ 128 }
    requires pages_len_bound { length pages.now ≤ 256 }
    requires tally_value { tally.old ≡ replicate 128 0 }
    ensures value { result ≡ each (shows_below f) 0 pages.now }
    ensures tally { result ≡ true → Tally tally.new (map page_in pages.now) }
{
    let limit = f + 2;
    for number in pages {
        if limit <= *number {
            return false;
        }
        if let PageState::Mapped(frame) = PageState::from(*number) {
            tally[frame.0 as usize] = tally[frame.0 as usize] + 1;
        }
    }
    true
}

#[tactic(auto, unfolding(crate::specs::Numbers::frame_code))]
fn frame_counted(shown: u16, number: u8) -> bool
    ensures { result ≡ (leb number 2 && eqb shown (pick (eqb number 2) 1 0)) }
{
    let mapped = FrameState::Mapped.number();
    (number <= mapped) & (shown == (number == mapped) as u16)
}

// Whether each frame is Mapped if one page shows it, and else shown by none.
#[tactic(auto, unfolding(capabilities::specs::Lists::each))]
fn frames_counted(frames: &[u8], tally: &[u16; 128]) -> bool
    requires { length frames.now ≤ 128 }
    ensures { result ≡ each (is_counted tally.now) 0 frames.now }
{
    let mut sound = true;
    for (k, number) in frames.iter().enumerate() {
        sound = sound & frame_counted(tally[k], *number);
    }
    sound
}

// The page layer's part of "A state is well formed", on numbers.
pub fn layer_sound(v: u16, f: u16, pages: &[u16], frames: &[u8]) -> bool
    ensures { result ≡ layer_sound v f pages.now frames.now }
{
    let sized = (pages.len() == 256) & (frames.len() == 128);
    if !(in_range(v, f) & sized) {
        return false;
    }
    let used = v as usize;
    let shown = f as usize;
    let mut tally = [0u16; 128];
    let low = counts(f, &pages[..used], &mut tally);
    let low_rest = unused(&pages[used..], 0);
    let counted = frames_counted(&frames[..shown], &tally);
    let counted_rest = unused(&frames[shown..], 0);
    (low & low_rest) & (counted & counted_rest)
}
