// The calls in place, over lent arrays of numbers: each kind of call is done by one function here. Whoever calls one knows that the
// arrays are well formed; on others it answers too, and promises nothing, so none of these is an entry.
// Each is lent the parts that it reads or changes and no more, not a whole `Machine`: its promise
// (`calls_in_place:Parts.OnWords` and its like) then holds whatever the rest is. Cells and tags, words and marks, mail and flags are two
// slices each, as C lends them.
#![tactic(auto)]

ghost use Rattle.std.specs.Prelude.{◌≡◌};
ghost use Rattle.calls_in_place.specs.Parts.{range_in};

use arrays::Numbers;
use capabilities::Range;

pub mod claim_calls;
pub mod collect_calls;
pub mod page_calls;
pub mod revoke_calls;
pub mod sweep_calls;
pub mod table_calls;
pub mod word_calls;

// The range that is being revoked, which is empty where no revocation runs.
fn revoked_range(nums: Numbers) -> Range
    ensures { result ≡ range_in nums }
{
    Range {
        base: nums.base,
        length: nums.length,
    }
}
