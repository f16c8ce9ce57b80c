// Whether lent arrays are a well-formed state, each number as the state is written.
#![tactic(auto)]

ghost use Rattle.std.specs.Prelude.{◌≡◌};
ghost use Rattle.arrays.specs.Lent.{seen};
ghost use Rattle.formed.specs.Test.{RevocationKept, formed_of};

use arrays::{Numbers, View};
use claims::sound::claims_sound;
use pages::lent::all_freed;
use pages::sound::layer_sound;
use reservations::{range_of, whole_pages};
use table::LentRows;
use words::registers::{bits, mailboxes_sound};

pub mod fresh;

// The range that is kept beside V and F is the Revoking reservation's, which is made of whole pages, all Freed; if there is none, the
// sweep place is 0.
fn revocation_kept(nums: Numbers, rows: &[u64], pages: &[u16]) -> bool
    ensures { RevocationKept result nums rows.now pages.now }
{
    let count = nums.count;
    let table = LentRows { rows, count };
    let found = table.revoking();
    let row = table.row(found);
    let kept = (nums.base == row.base) & (nums.length == row.length);
    match found {
        None => kept & (nums.place == 0),
        Some(_) => kept & (whole_pages(row) & all_freed(pages, range_of(row))),
    }
}

// Whether arrays are a well-formed state, each number as the state is written.
pub fn formed(view: View<'_>) -> bool
    ensures { result ≡ formed_of (seen view.entry) }
{
    let nums = view.nums;
    let sized = ((view.words.len() == 64) & (view.marks.len() == 64))
        & ((view.mail.len() == 8) & (view.flags.len() == 8));
    let layer = layer_sound(nums.v, nums.f, view.pages, view.frames);
    if !(sized & layer) {
        return false;
    }
    let rows = LentRows {
        rows: view.rows,
        count: nums.count,
    };
    let table = rows.well_formed(16 * (nums.v as u32));
    let placed = nums.place <= 16 * (nums.f as u32);
    let kept = revocation_kept(nums, view.rows, view.pages);
    let tags = (bits(view.marks) & bits(view.flags)) & mailboxes_sound(view.mail, view.flags);
    let claims = claims_sound(nums.v, view.principals, view.counts);
    ((table & placed) & (kept & tags)) & claims
}
