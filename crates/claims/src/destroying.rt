// Destroy, in place: a principal and its descendants are dropped, and their limits go to its parent.
ghost use Rattle.std.specs.Prelude.{ℕ, ◌+◌, ◌/◌, ◌<◌, ◌≤◌, true, false, ◌≡◌, List, length, get_or, is_ok};
ghost use Rattle.capabilities.specs.Lists.{pick, map_each};
ghost use Rattle.capabilities.specs.Refusals.{first, code};
ghost use Rattle.claims.specs.Claims.{limit_of, sum};
ghost use Rattle.claims.specs.Tree.{leads_up};
ghost use Rattle.claims.specs.Operations.{destroy_reasons};
ghost use Rattle.claims.specs.Numbers.{claims_in, sized_in};
ghost use Rattle.claims.specs.Lent.{destroyed_in, cleared_in};

use crate::lent::{above, limit_of, principal_in, put_unspent};
use crate::tree::leads_up;
use capabilities::refusal::Refusal;
use std::array;

// Those from whom parents lead up to the principal: it and its descendants.
fn marks_of(principals: &[u64], principal: usize) -> [bool; 32]
    ensures { (counts : List ℕ) (q : ℕ) → q < 32 → get_or result q false ≡ leads_up (claims_in principals.now counts) principal q }
{
    array::from_fn(|q| leads_up(principals, principal, q))
}

// The limits of the marked.
fn shares(principals: &[u64; 32], counts: &[u16; 8192], marks: &[bool; 32]) -> u32
    ensures { result ≡ sum 32 (λ q. pick (get_or marks.now q false) (limit_of (claims_in principals.now counts.now) q) 0) }
{
    let mut total: u32 = 0;
    for q in 0..32 {
        if marks[q] {
            let spent = above(&counts[256 * q..256 * q + 256]);
            total += limit_of(principals[q], spent);
        }
    }
    total
}

// The numbers of the marked become 0.
fn clear_numbers(principals: &mut [u64; 32], marks: &[bool; 32])
    ensures { principals.new ≡ map_each (λ q n. pick (get_or marks.now q false) 0 n) 0 principals.old }
{
    for q in 0..32 {
        if marks[q] {
            principals[q] = 0;
        }
    }
}

// The counts of the marked become 0.
fn clear_counts(counts: &mut [u16; 8192], marks: &[bool; 32])
    ensures { counts.new ≡ map_each (λ i n. pick (get_or marks.now (i / 256) false) 0 n) 0 counts.old }
{
    for q in 0..32 {
        if marks[q] {
            counts[256 * q..256 * q + 256].fill(0);
        }
    }
}

fn drop_all(principals: &mut [u64; 32], counts: &mut [u16; 8192], principal: u8)
    ensures principals_after { principals.new ≡ destroyed_in principals.old counts.old principal }
    ensures counts_after { counts.new ≡ cleared_in principals.old counts.old principal }
{
    let q = principal_in(&principals[..], principal as usize);
    let parent = q.parent as usize;
    let heir = principal_in(&principals[..], parent);
    let marks = marks_of(&principals[..], principal as usize);
    let back = shares(principals, counts, &marks);
    let unspent = (heir.unspent as u32 + back) % 65536;
    clear_numbers(principals, &marks);
    clear_counts(counts, &marks);
    put_unspent(&mut principals[..], parent, unspent as u16);
}

// The refusals of destroy, in their order.
#[tactic(auto, using(crate::proofs::Reading::destroy_read))]
fn may_destroy(principals: &[u64], party: u8, principal: u8) -> Result<(), Refusal>
    ensures { (counts : List ℕ) → code result ≡ first (destroy_reasons (claims_in principals.now counts) party principal) }
{
    let q = principal_in(principals, principal as usize);
    let parent = principal_in(principals, q.parent as usize);
    let held = parent.held_by(party);
    if !(q.being & ((principal != 0) & held)) {
        return Err(Refusal::Principal);
    }
    Ok(())
}

// 15: the principal and its descendants are gone, or the refusal.
pub fn destroy(
    principals: &mut [u64],
    counts: &mut [u16],
    party: u8,
    principal: u8,
) -> Result<(), Refusal>
    ensures value { code result ≡ pick (sized_in principals.old counts.old) (first (destroy_reasons (claims_in principals.old counts.old) party principal)) 1 }
    ensures principals_after { principals.new ≡ pick (is_ok result) (destroyed_in principals.old counts.old principal) principals.old }
    ensures counts_after { counts.new ≡ pick (is_ok result) (cleared_in principals.old counts.old principal) counts.old }
{
    // From here on the lengths are in the types.
    let Some(principals) = principals.as_mut_array::<32>() else {
        return Err(Refusal::State);
    };
    let Some(counts) = counts.as_mut_array::<8192>() else {
        return Err(Refusal::State);
    };
    may_destroy(&principals[..], party, principal)?;
    drop_all(principals, counts, principal);
    Ok(())
}
