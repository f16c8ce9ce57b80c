// Create, claim and release, in place. Each judges its refusals first; a refused one writes nothing.
ghost use Rattle.std.specs.Prelude.{ℕ, ◌+◌, ◌-◌, ◌*◌, ◌≡◌, List, set, is_ok};
ghost use Rattle.capabilities.specs.Lists.{pick};
ghost use Rattle.capabilities.specs.Refusals.{first, code};
ghost use Rattle.claims.specs.Operations.{create_reasons, claim_reasons, release_reasons};
ghost use Rattle.claims.specs.Numbers.{claims_in};
ghost use Rattle.claims.specs.Lent.{count_in, created_in, claimed_in, released_in};

use crate::Principal;
use crate::lent::{count_in, place, principal_in, put_unspent};
use capabilities::refusal::Refusal;
use capabilities::slices::put;

// The refusals of create, in their order.
#[tactic(auto, using(crate::proofs::Reading::create_read))]
fn may_create(
    principals: &[u64],
    party: u8,
    parent: u8,
    child: u8,
    limit: u16,
) -> Result<(), Refusal>
    ensures { (counts : List ℕ) → code result ≡ first (create_reasons (claims_in principals.now counts) party parent child limit) }
{
    let from = principal_in(principals, parent as usize);
    let to = principal_in(principals, child as usize);
    let held = from.held_by(party);
    if !held | (to.being | (32 <= child)) {
        return Err(Refusal::Principal);
    }
    if from.unspent < limit {
        return Err(Refusal::Limit);
    }
    Ok(())
}

// 12: unspent limit moves from the parent to a child of it, or the refusal.
pub fn create(
    principals: &mut [u64],
    party: u8,
    parent: u8,
    child: u8,
    limit: u16,
    holder: u8,
) -> Result<(), Refusal>
    ensures by_index { (counts : List ℕ) → code result ≡ first (create_reasons (claims_in principals.old counts) party parent child limit) }
    ensures principals_after { principals.new ≡ pick (is_ok result) (created_in principals.old parent child limit holder) principals.old }
{
    may_create(&principals[..], party, parent, child, limit)?;
    let q = principal_in(&principals[..], parent as usize);
    put_unspent(principals, parent as usize, q.unspent.saturating_sub(limit));
    let new = Principal {
        being: true,
        holder,
        parent,
        unspent: limit,
    };
    put(principals, child as usize, u64::from(new));
    Ok(())
}

// The refusals of claim, in their order.
#[tactic(auto, using(crate::proofs::Reading::claim_read))]
fn may_claim(
    principals: &[u64],
    counts: &[u16],
    party: u8,
    principal: u8,
    page: u8,
) -> Result<(), Refusal>
    ensures { code result ≡ first (claim_reasons (claims_in principals.now counts.now) party principal page) }
{
    let q = principal_in(principals, principal as usize);
    let n = count_in(counts, principal, page);
    if !q.held_by(party) {
        return Err(Refusal::Principal);
    }
    if ((n == 0) & (q.unspent == 0)) | (65535 <= n) {
        return Err(Refusal::Limit);
    }
    Ok(())
}

// The first count of a page spends 1.
fn spend(principals: &mut [u64], principal: u8, n: u16)
    ensures { principals.new ≡ claimed_in principals.old principal n }
{
    if n == 0 {
        let q = principal_in(&principals[..], principal as usize);
        put_unspent(principals, principal as usize, q.unspent.saturating_sub(1));
    }
}

// 13: the count is one up, or the refusal.
pub fn claim(
    principals: &mut [u64],
    counts: &mut [u16],
    party: u8,
    principal: u8,
    page: u8,
) -> Result<(), Refusal>
    ensures value { code result ≡ first (claim_reasons (claims_in principals.old counts.old) party principal page) }
    ensures principals_after { principals.new ≡ pick (is_ok result) (claimed_in principals.old principal (count_in counts.old principal page)) principals.old }
    ensures counts_after { counts.new ≡ pick (is_ok result) (set counts.old (256 * principal + page) (count_in counts.old principal page + 1)) counts.old }
{
    may_claim(&principals[..], &counts[..], party, principal, page)?;
    let n = count_in(&counts[..], principal, page);
    spend(principals, principal, n);
    put(counts, place(principal, page), n + 1);
    Ok(())
}

// The refusals of release, in their order.
#[tactic(auto, using(crate::proofs::Reading::release_read))]
fn may_release(
    principals: &[u64],
    counts: &[u16],
    party: u8,
    principal: u8,
    page: u8,
) -> Result<(), Refusal>
    ensures { code result ≡ first (release_reasons (claims_in principals.now counts.now) party principal page) }
{
    let q = principal_in(principals, principal as usize);
    if !q.held_by(party) {
        return Err(Refusal::Principal);
    }
    if count_in(counts, principal, page) == 0 {
        return Err(Refusal::Limit);
    }
    Ok(())
}

// The last count of a page gives 1 back.
fn restore(principals: &mut [u64], principal: u8, n: u16)
    ensures { principals.new ≡ released_in principals.old principal n }
{
    if n == 1 {
        let q = principal_in(&principals[..], principal as usize);
        put_unspent(principals, principal as usize, q.unspent.wrapping_add(1));
    }
}

// 14: the count is one down, or the refusal.
pub fn release(
    principals: &mut [u64],
    counts: &mut [u16],
    party: u8,
    principal: u8,
    page: u8,
) -> Result<(), Refusal>
    ensures value { code result ≡ first (release_reasons (claims_in principals.old counts.old) party principal page) }
    ensures principals_after { principals.new ≡ pick (is_ok result) (released_in principals.old principal (count_in counts.old principal page)) principals.old }
    ensures counts_after { counts.new ≡ pick (is_ok result) (set counts.old (256 * principal + page) (count_in counts.old principal page - 1)) counts.old }
{
    may_release(&principals[..], &counts[..], party, principal, page)?;
    let n = count_in(&counts[..], principal, page);
    restore(principals, principal, n);
    put(counts, place(principal, page), n.saturating_sub(1));
    Ok(())
}
