// 05: a revocation begins.
ghost use Rattle.calls.specs.declared.Call.TheVariants.{Revoke};
ghost use Rattle.arrays.specs.Steps.{done};
ghost use Rattle.calls_in_place.specs.Parts.{OnRange};

use arrays::Numbers;
use capabilities::refusal::Refusal;
use reservations::lent::check_revoke;
use table::LentRows;
use words::codes::manager_check;

// 05. A revocation runs if the range that is kept is not empty.
#[tactic(auto, using(crate::proofs::Revoking::revoke_early, crate::proofs::Revoking::revoke_down, crate::proofs::Revoking::revoke_done))]
pub fn revoke(
    nums: &mut Numbers,
    rows: &mut [u64],
    pages: &mut [u16],
    party: u8,
    base: u16,
) -> Result<(), Refusal>
    ensures { OnRange nums.old (done result) nums.new rows.old pages.old rows.new pages.new (Revoke party base) }
{
    manager_check(party)?;
    let count = nums.count;
    let table = LentRows { rows, count };
    let found = table.find(party, base);
    check_revoke(table, pages, found, nums.length != 0)?;
    let range = reservations::lent::revoke(rows, count, pages, found);
    *nums = Numbers {
        base: range.base,
        length: range.length,
        place: 0,
        ..*nums
    };
    Ok(())
}
