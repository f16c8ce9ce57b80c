// 12 to 15: the claims' own functions, after the refusals 4 and 12.
ghost use Rattle.std.specs.Prelude.{ℕ, ◌≡◌, List, leb};
ghost use Rattle.capabilities.specs.Lists.{pick};
ghost use Rattle.capabilities.specs.Refusals.{code};
ghost use Rattle.words.specs.WordReasons.{unnamed};
ghost use Rattle.calls.specs.declared.Call.TheVariants.{Create, Claim, Release, Destroy};
ghost use Rattle.arrays.specs.Steps.{done};
ghost use Rattle.calls_in_place.specs.Parts.{OnClaims};

use crate::table_calls::known;
use capabilities::refusal::Refusal;
use claims::{destroying, operations};
use pages::VirtualPage;

// 12. The counts are not touched: those of a principal that is not in being are 0.
#[tactic(auto, using(crate::proofs::Claiming::create_unknown, crate::proofs::Early::first_unknown, crate::proofs::Early::second_unknown))]
pub fn create(
    principals: &mut [u64],
    party: u8,
    parent: u8,
    child: u8,
    limit: u16,
    holder: u8,
) -> Result<(), Refusal>
    ensures { (v : ℕ) (counts : List ℕ) → OnClaims v (done result) principals.old counts principals.new counts (Create party parent child limit holder) }
{
    known(party)?;
    known(holder)?;
    operations::create(principals, party, parent, child, limit, holder)
}

// The refusals of a claim and a release before the claims' own.
fn check_page(v: u16, party: u8, page: VirtualPage) -> Result<(), Refusal>
    ensures { code result ≡ pick (unnamed party) 4 (pick (leb v page.0) 12 0) }
{
    known(party)?;
    if v <= page.0 as u16 {
        return Err(Refusal::OutOfRange);
    }
    Ok(())
}

// 13.
#[tactic(auto, using(crate::proofs::Claiming::claim_early))]
pub fn claim(
    v: u16,
    principals: &mut [u64],
    counts: &mut [u16],
    party: u8,
    principal: u8,
    page: VirtualPage,
) -> Result<(), Refusal>
    ensures { OnClaims v (done result) principals.old counts.old principals.new counts.new (Claim party principal page) }
{
    check_page(v, party, page)?;
    operations::claim(principals, counts, party, principal, page.0)
}

// 14.
#[tactic(auto, using(crate::proofs::Claiming::release_early))]
pub fn release(
    v: u16,
    principals: &mut [u64],
    counts: &mut [u16],
    party: u8,
    principal: u8,
    page: VirtualPage,
) -> Result<(), Refusal>
    ensures { OnClaims v (done result) principals.old counts.old principals.new counts.new (Release party principal page) }
{
    check_page(v, party, page)?;
    operations::release(principals, counts, party, principal, page.0)
}

// 15.
#[tactic(auto, using(crate::proofs::Claiming::destroy_unknown))]
pub fn destroy(
    principals: &mut [u64],
    counts: &mut [u16],
    party: u8,
    principal: u8,
) -> Result<(), Refusal>
    ensures { (v : ℕ) → OnClaims v (done result) principals.old counts.old principals.new counts.new (Destroy party principal) }
{
    known(party)?;
    destroying::destroy(principals, counts, party, principal)
}
