// Pages and frames: the layer's own functions, after the refusals of every manager's command.
ghost use Rattle.calls.specs.declared.Call.TheVariants.{Map, Unmap, Zero};
ghost use Rattle.arrays.specs.Steps.{done};
ghost use Rattle.calls_in_place.specs.Parts.{OnPages, OnClaimed, OnFrames};

use arrays::Numbers;
use capabilities::refusal::Refusal;
use claims::lent::any_counts;
use pages::{Frame, VirtualPage, lent};
use words::codes::manager_check;

// 08.
#[tactic(auto, using(crate::proofs::Mapping::map_early))]
pub fn map(
    nums: Numbers,
    pages: &mut [u16],
    frames: &mut [u8],
    party: u8,
    page: VirtualPage,
    frame: Frame,
) -> Result<(), Refusal>
    ensures { OnPages nums.v nums.f (done result) pages.old frames.old pages.new frames.new (Map party page frame) }
{
    manager_check(party)?;
    lent::map(nums.v, nums.f, pages, frames, page, frame)
}

// 09. The layer is told whether the page has a claim.
#[tactic(auto, using(crate::proofs::Mapping::unmap_early))]
pub fn unmap(
    nums: Numbers,
    pages: &mut [u16],
    frames: &mut [u8],
    counts: &[u16],
    party: u8,
    page: VirtualPage,
) -> Result<(), Refusal>
    ensures { OnClaimed nums.v nums.f counts.now (done result) pages.old frames.old pages.new frames.new (Unmap party page) }
{
    manager_check(party)?;
    let claimed = any_counts(counts, page.0);
    lent::unmap(nums.v, pages, frames, page, claimed)
}

// 0A.
#[tactic(auto, using(crate::proofs::Mapping::zero_early))]
pub fn zero(
    f: u16,
    frames: &mut [u8],
    party: u8,
    frame: Frame,
    cells: &mut [u64],
    tags: &mut [u8],
) -> Result<(), Refusal>
    ensures { OnFrames f (done result) frames.old cells.old tags.old frames.new cells.new tags.new (Zero party frame) }
{
    manager_check(party)?;
    lent::zero(f, frames, frame, cells, tags)
}
