// The cost of a page, asked of a state in place: a question, no call, and nothing is written.
#![tactic(auto)]

ghost use Rattle.std.specs.Prelude.{◌≡◌};
ghost use Rattle.claims.specs.Cost.{cost_of};
ghost use Rattle.claims.specs.Lent.{claimants_in};
ghost use Rattle.arrays.specs.Lent.{seen};
ghost use Rattle.cost.specs.Asked.{cost_on};
ghost use Rattle.cost.specs.Told.{told};

use arrays::View;
use capabilities::refusal::Refusal;
use claims::lent::count_in;
use formed::formed;

// What each of those who claim a page pays, and what is left over.
#[derive(Clone, Copy)]
pub struct Cost {
    pub share: u8,
    pub remainder: u8,
}

// How many of the 32 principals count the page above 0, however often.
pub fn claimants(counts: &[u16], page: u8) -> u8
    ensures { result ≡ claimants_in counts.now page }
{
    let mut n: u8 = 0;
    for p in 0..32 {
        n += (0 < count_in(counts, p, page)) as u8;
    }
    n
}

// What each of n pays for 16 cells; with nobody to pay, 0.
#[tactic(auto, unfolding(claims::specs::Cost::cost_of))]
pub fn share(n: u8) -> u8
    ensures { result ≡ (cost_of n).share }
{
    if n == 0 { 0 } else { 16 / n }
}

// What is left over.
#[tactic(auto, unfolding(claims::specs::Cost::cost_of))]
pub fn remainder(n: u8) -> u8
    ensures { result ≡ (cost_of n).remainder }
{
    if n == 0 { 16 } else { 16 % n }
}

// The cost of a page, of any arrays and any page.
pub fn page_cost(view: View<'_>, page: u64) -> Result<Cost, Refusal>
    ensures { told result ≡ cost_on (seen view.entry) page }
{
    if !formed(view) {
        return Err(Refusal::State);
    }
    if (view.nums.v as u64) <= page {
        return Err(Refusal::OutOfRange);
    }
    let n = claimants(view.counts, page as u8);
    Ok(Cost {
        share: share(n),
        remainder: remainder(n),
    })
}
