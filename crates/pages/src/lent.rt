// Pages and frames as lent arrays of numbers, read and written in place: C lends them so, and there is no heap.
ghost use Rattle.std.specs.Prelude.{ℕ, ◌+◌, ◌*◌, ◌/◌, ◌<◌, ◌≤◌, min, ◌≡◌, List, length, get_or, set, replicate, is_ok};
ghost use Rattle.capabilities.specs.Lists.{pick};
ghost use Rattle.capabilities.specs.Refusals.{code, first};
ghost use Rattle.pages.specs.declared.PageState.TheVariants.{Freed, Mapped};
ghost use Rattle.pages.specs.declared.FrameState.TheVariants.{Dirty, Free, Mapped as Shown};
ghost use Rattle.pages.specs.Entries.{is_unmapped, is_mapped, frame_number};
ghost use Rattle.pages.specs.Freed.{is_freed, all_freed};
ghost use Rattle.pages.specs.Mapping.{map_reasons, unmap_reasons, zero_reasons, cleared, place_in, lookup_of, any_mapped, freed_of, released_of};
ghost use Rattle.pages.specs.Numbers.{page_from, page_code, frame_from, frame_code, layer_of, freed_numbers, released_numbers};

use crate::{Frame, FrameState, PageState, VirtualPage};
use capabilities::Range;
use capabilities::refusal::Refusal;
use capabilities::slices::{at_or, put};

// Every page is Unmapped.
pub fn clear_pages(pages: &mut [u16])
    ensures { pages.new ≡ replicate (length pages.old) 0 }
{
    pages.fill(0);
}

// Where a virtual cell lies in lent memory.
#[tactic(auto, using(crate::proofs::OnNumbers::lookup_read))]
pub fn lookup(v: u16, pages: &[u16], cell: u32) -> Option<usize>
    ensures { (f : ℕ) (frames : List ℕ) → result ≡ lookup_of (layer_of v f pages.now frames) cell }
{
    let page = cell / 16;
    if v as u32 <= page {
        return None;
    }
    match PageState::from(at_or(pages, page as usize, 0)) {
        PageState::Mapped(frame) => Some(16 * (frame.0 as usize) + (cell % 16) as usize),
        PageState::Unmapped | PageState::Freed => None,
    }
}

// 08: the page shows the frame, or the refusal.
#[tactic(auto, using(crate::proofs::OnNumbers::map_read))]
pub fn map(
    v: u16,
    f: u16,
    pages: &mut [u16],
    frames: &mut [u8],
    page: VirtualPage,
    frame: Frame,
) -> Result<(), Refusal>
    ensures value { code result ≡ first (map_reasons (layer_of v f pages.old frames.old) page frame) }
    ensures pages_after { pages.new ≡ pick (is_ok result) (set pages.old page.0 (page_code (Mapped frame))) pages.old }
    ensures frames_after { frames.new ≡ pick (is_ok result) (set frames.old frame.0 (frame_code Shown)) frames.old }
{
    if (v <= page.0 as u16) | (f <= frame.0 as u16) {
        return Err(Refusal::OutOfRange);
    }
    if PageState::from(at_or(&pages[..], page.0 as usize, 0)) != PageState::Unmapped {
        return Err(Refusal::PageState);
    }
    if FrameState::from(at_or(&frames[..], frame.0 as usize, 0)) != FrameState::Free {
        return Err(Refusal::FrameState);
    }
    put(pages, page.0 as usize, PageState::Mapped(frame).number());
    put(frames, frame.0 as usize, FrameState::Mapped.number());
    Ok(())
}

// 09: the page is Freed and the frame that it showed Dirty, or the refusal; it is told whether the page has a claim.
#[tactic(auto, using(crate::proofs::OnNumbers::unmap_read))]
pub fn unmap(
    v: u16,
    pages: &mut [u16],
    frames: &mut [u8],
    page: VirtualPage,
    claimed: bool,
) -> Result<(), Refusal>
    ensures by_index { (f : ℕ) → code result ≡ first (unmap_reasons (layer_of v f pages.old frames.old) page claimed) }
    ensures pages_after { pages.new ≡ pick (is_ok result) (set pages.old page.0 (page_code Freed)) pages.old }
    ensures frames_after { frames.new ≡ pick (is_ok result) (set frames.old (frame_number (page_from (get_or pages.old page.0 0))) (frame_code Dirty)) frames.old }
{
    if v <= page.0 as u16 {
        return Err(Refusal::OutOfRange);
    }
    let PageState::Mapped(shown) = PageState::from(at_or(&pages[..], page.0 as usize, 0)) else {
        return Err(Refusal::PageState);
    };
    if claimed {
        return Err(Refusal::Claimed);
    }
    put(pages, page.0 as usize, PageState::Freed.number());
    put(frames, shown.0 as usize, FrameState::Dirty.number());
    Ok(())
}

// 0A: the frame's cells and tags are 0 and the frame is Free, or the refusal.
#[tactic(auto, using(crate::proofs::OnNumbers::zero_read))]
pub fn zero(
    f: u16,
    frames: &mut [u8],
    frame: Frame,
    cells: &mut [u64],
    tags: &mut [u8],
) -> Result<(), Refusal>
    ensures by_index { (v : ℕ) (pages : List ℕ) → code result ≡ first (zero_reasons (layer_of v f pages frames.old) frame (length cells.old) (length tags.old)) }
    ensures frames_after { frames.new ≡ pick (is_ok result) (set frames.old frame.0 (frame_code Free)) frames.old }
    ensures cells_after { cells.new ≡ pick (is_ok result) (cleared frame cells.old) cells.old }
    ensures tags_after { tags.new ≡ pick (is_ok result) (cleared frame tags.old) tags.old }
{
    let size = 16 * (f as usize);
    if !((cells.len() == size) & (tags.len() == size)) {
        return Err(Refusal::Memory);
    }
    if f <= frame.0 as u16 {
        return Err(Refusal::OutOfRange);
    }
    if FrameState::from(at_or(&frames[..], frame.0 as usize, 0)) != FrameState::Dirty {
        return Err(Refusal::FrameState);
    }
    let start = 16 * (frame.0 as usize);
    cells[start..start + 16].fill(0);
    tags[start..start + 16].fill(0);
    put(frames, frame.0 as usize, FrameState::Free.number());
    Ok(())
}

// The pages of a range are those whose first cell lies in it: from one place up to another, or to the last there is.
fn places(range: Range, count: usize) -> (usize, usize)
    ensures start { result.0 ≡ min ((range.base + 15) / 16) result.1 }
    ensures end { result.1 ≡ min ((range.base + range.length + 15) / 16) count }
{
    let base = range.base as usize;
    let end = ((base + range.length as usize + 15) / 16).min(count);
    (((base + 15) / 16).min(end), end)
}

// Whether a page of the range is Mapped: the numbers from 2 on are. It asks all, so that the compiler takes several at once: `any` would stop
// early.
#[tactic(auto, unfolding(capabilities::specs::Lists::each))]
pub fn any_mapped(pages: &[u16], range: Range) -> bool
    ensures { (v f : ℕ) (frames : List ℕ) → result ≡ any_mapped (layer_of v f pages.now frames) range }
{
    let (start, end) = places(range, pages.len());
    let mut none = true;
    for number in &pages[start..end] {
        none = none & (*number <= 1);
    }
    !none
}

// Whether all pages of the range are Freed.
#[tactic(auto, unfolding(capabilities::specs::Lists::each))]
pub fn all_freed(pages: &[u16], range: Range) -> bool
    ensures { (v f : ℕ) (frames : List ℕ) → result ≡ all_freed (layer_of v f pages.now frames) range }
{
    let (start, end) = places(range, pages.len());
    let mut all = true;
    for number in &pages[start..end] {
        all = all & (*number == PageState::Freed.number());
    }
    all
}

fn freed(number: u16) -> u16
    ensures { result ≡ pick (is_unmapped (page_from number)) (page_code Freed) number }
{
    if number == PageState::Unmapped.number() {
        PageState::Freed.number()
    } else {
        number
    }
}

// 05: the Unmapped pages of the range become Freed.
pub fn free(pages: &mut [u16], range: Range)
    ensures pages_after { pages.new ≡ freed_numbers range pages.old }
    ensures by_index { (v f : ℕ) (frames : List ℕ) → layer_of v f pages.new frames ≡ freed_of (layer_of v f pages.old frames) range }
{
    let (start, end) = places(range, pages.len());
    for number in &mut pages[start..end] {
        *number = freed(*number);
    }
}

// 07: the pages of the range become Unmapped.
pub fn release(pages: &mut [u16], range: Range)
    ensures pages_after { pages.new ≡ released_numbers range pages.old }
    ensures by_index { (v f : ℕ) (frames : List ℕ) → layer_of v f pages.new frames ≡ released_of (layer_of v f pages.old frames) range }
{
    let (start, end) = places(range, pages.len());
    pages[start..end].fill(PageState::Unmapped.number());
}
