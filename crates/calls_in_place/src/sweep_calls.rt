// 06: the sweep goes on.
ghost use Rattle.calls.specs.declared.Call.TheVariants.{Sweep};
ghost use Rattle.arrays.specs.Steps.{told};
ghost use Rattle.calls_in_place.specs.Parts.{OnSweep};

use crate::revoked_range;
use arrays::Numbers;
use capabilities::refusal::Refusal;
use sweep::frames::sweep_in;
use words::Slot;
use words::codes::manager_check;

// 06. The range is kept beside the table, so no row is read.
#[tactic(auto, using(crate::proofs::Sweeping::sweep_early, crate::proofs::Sweeping::sweep_down))]
pub fn sweep(
    nums: &mut Numbers,
    frames: &[u8],
    party: u8,
    n: u16,
    cells: &[u64],
    tags: &mut [u8],
) -> Result<Slot, Refusal>
    ensures { OnSweep nums.old frames.now (told result) nums.new cells.now tags.old tags.new (Sweep party n) }
{
    manager_check(party)?;
    if nums.length == 0 {
        return Err(Refusal::Revocation);
    }
    let range = revoked_range(*nums);
    let swept = sweep_in(nums.f, frames, range, nums.place, n, cells, tags)?;
    nums.place = swept.place;
    Ok(Slot {
        cell: swept.left as u64,
        tag: false,
    })
}
