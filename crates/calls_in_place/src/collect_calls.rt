// 07: a revocation ends.
ghost use Rattle.calls.specs.declared.Call.TheVariants.{Collect};
ghost use Rattle.arrays.specs.Steps.{done};
ghost use Rattle.calls_in_place.specs.Parts.{OnCollect};

use crate::revoked_range;
use arrays::Numbers;
use capabilities::refusal::Refusal;
use words::codes::manager_check;
use words::collecting::{collect_mail, collect_words};

// 07. The revoked range is kept beside the table; afterwards none is.
#[tactic(auto, using(crate::proofs::Collecting::collect_early, crate::proofs::Collecting::collect_down, crate::proofs::Collecting::collect_done))]
pub fn collect(
    nums: &mut Numbers,
    rows: &mut [u64],
    pages: &mut [u16],
    words: &[u64],
    marks: &mut [u8],
    mail: &mut [u64],
    flags: &mut [u8],
    party: u8,
) -> Result<(), Refusal>
    ensures { OnCollect nums.old words.now (done result) nums.new marks.old mail.old flags.old rows.old pages.old marks.new mail.new flags.new rows.new pages.new (Collect party) }
{
    manager_check(party)?;
    let end = 16 * (nums.f as u32);
    if (nums.length == 0) | !(end <= nums.place) {
        return Err(Refusal::Revocation);
    }
    let range = revoked_range(*nums);
    collect_words(range, words, marks);
    collect_mail(range, mail, flags);
    reservations::lent::collect(rows, nums.count, pages);
    *nums = Numbers {
        base: 0,
        length: 0,
        place: 0,
        ..*nums
    };
    Ok(())
}
