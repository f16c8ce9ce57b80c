// Which principals descend from which.
ghost use Rattle.std.specs.Prelude.{ℕ, ◌≡◌, List};
ghost use Rattle.claims.specs.Tree.{leads_up};
ghost use Rattle.claims.specs.Numbers.{claims_in};

use crate::lent::principal_in;

// Whether parents lead from a principal up to `top`. One that is its own parent leads no further.
#[tactic(auto, using(crate::proofs::Descent::leads_there, crate::proofs::Descent::leads_on, crate::proofs::Descent::leads_nowhere, crate::proofs::Reading::parent_read), unfolding(crate::specs::Tree::leads_within))]
pub fn leads_up(principals: &[u64], top: usize, p: usize) -> bool
    ensures { (counts : List ℕ) → result ≡ leads_up (claims_in principals.now counts) top p }
{
    let mut at = p;
    for _turn in 0..31_usize {
        if at == top {
            return true;
        }
        let q = principal_in(principals, at);
        let parent = q.parent as usize;
        if parent == at {
            return false;
        }
        at = parent;
    }
    at == top
}
