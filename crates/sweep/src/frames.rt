// The sweep over frames that lie in memory as numbers: a frame at a time, and a whole Mapped one with no branch a cell.
// Cells and tags are two slices, as C lends them.
ghost use Rattle.std.specs.Prelude.{◌≡◌, List, map, ℕ, ◌+◌, ◌*◌, ◌/◌, ◌<◌, ◌≤◌, min, length};
ghost use Rattle.pages.specs.Numbers.{frame_in, layer_of};
ghost use Rattle.sweep.specs.Sweep.{shown_at, swept_tags, passing, answered, sweep_of};
ghost use Rattle.sweep.specs.Frames.{Bases, PassesShown};

use crate::Swept;
use capabilities::Range;
use capabilities::capability::base_of;
use capabilities::death::{base_lives, last_of};
use capabilities::refusal::Refusal;
use capabilities::slices::at_or;
use pages::FrameState;

fn shown_in(frames: &[u8], frame: usize) -> bool
    ensures { result ≡ shown_at (map frame_in frames.now) frame }
{
    FrameState::from(at_or(frames, frame, 0)) == FrameState::Mapped
}

// The bases in sixteen cells. They are read before a tag is written, so that the compiler takes several cells at once.
fn bases_from(from: usize, cells: &[u64]) -> [u16; 16]
    requires { from + 16 ≤ length cells.now }
    ensures { Bases from 16 cells.now result }
{
    let mut bases: [u16; 16] = [0; 16];
    for j in 0..16 {
        bases[j] = base_of(cells[from + j]);
    }
    bases
}

// A whole Mapped frame. A tag is multiplied by 0 or 1: a branch would stop the compiler from taking several cells at once.
fn sweep_frame(range: Range, from: usize, cells: &[u64], tags: &mut [u8])
    requires { (0 < range.length) × (length cells.now ≡ length tags.old) × (from + 16 ≤ length tags.old) }
    ensures { PassesShown range from (from + 16) cells.now tags.old tags.new }
{
    let last = last_of(range);
    let bases = bases_from(from, cells);
    for j in 0..16 {
        let i = from + j;
        let lives = base_lives(range, last, bases[j]);
        let tag = tags[i];
        tags[i] = tag * (lives as u8);
    }
}

// The same of a part of a Mapped frame. There are two loops, since a whole frame, of a fixed length and with its bases read first, is faster.
fn sweep_part(range: Range, from: usize, upto: usize, cells: &[u64], tags: &mut [u8])
    requires { (0 < range.length) × (length cells.now ≡ length tags.old) × (from ≤ upto) × (upto ≤ length tags.old) }
    ensures { PassesShown range from upto cells.now tags.old tags.new }
{
    let last = last_of(range);
    for i in from..upto {
        let lives = base_lives(range, last, base_of(cells[i]));
        let tag = tags[i];
        tags[i] = tag * (lives as u8);
    }
}

// Some cells of one Mapped frame.
fn sweep_cells(range: Range, from: usize, upto: usize, cells: &[u64], tags: &mut [u8])
    requires { (0 < range.length) × (length cells.now ≡ length tags.old) × (from ≤ upto) × (upto ≤ length tags.old) }
    ensures { PassesShown range from upto cells.now tags.old tags.new }
{
    if upto - from == 16 {
        sweep_frame(range, from, cells, tags);
    } else {
        sweep_part(range, from, upto, cells, tags);
    }
}

// Passes the cells from one place up to another, a frame at a time: up to its end, or to that of the sweep if it comes first.
fn sweep_frames(
    frames: &[u8],
    range: Range,
    from: usize,
    upto: usize,
    cells: &[u64],
    tags: &mut [u8],
)
    requires { (length cells.now ≡ length tags.old) × (from < upto → upto ≤ length tags.old) }
    ensures { tags.new ≡ swept_tags (map frame_in frames.now) range from upto cells.now tags.old }
{
    if range.length == 0 {
        return;
    }
    // A `for` over frames is no plainer: it cuts every frame at both ends, and needs the case from >= upto apart.
    let mut i = from;
    while i < upto {
        let stop = (i - i % 16 + 16).min(upto);
        if shown_in(frames, i / 16) {
            sweep_cells(range, i, stop, cells, tags);
        }
        i = stop;
    }
}

// 06: passes the next n cells from a place, or as many as are left, and clears the tags of capabilities into the range.
pub fn sweep_in(
    f: u16,
    frames: &[u8],
    range: Range,
    place: u32,
    n: u16,
    cells: &[u64],
    tags: &mut [u8],
) -> Result<Swept, Refusal>
    ensures { (v : ℕ) (pages : List ℕ) → passing (answered result place) tags.new ≡ sweep_of (layer_of v f pages frames.now) range place n cells.now tags.old }
{
    let size = 16 * (f as u32);
    if !((cells.len() == size as usize) & (tags.len() == size as usize)) {
        return Err(Refusal::Memory);
    }
    let next = place + (n as u32).min(size.saturating_sub(place));
    sweep_frames(frames, range, place as usize, next as usize, cells, tags);
    Ok(Swept {
        left: size.saturating_sub(next),
        place: next,
    })
}
