// Whether lent principals and counts are well-formed claims: one pass over the counts.
ghost use Rattle.std.specs.Prelude.{ℕ, ◌≤◌, ◌&&◌, ◌||◌, ◌≡◌, List, eqb, length, drop};
ghost use Rattle.claims.specs.Claims.{above};
ghost use Rattle.claims.specs.Sound.{principal_sound, root_sound, is_nobody};
ghost use Rattle.claims.specs.Numbers.{principal_from, written, claims_in, sound_in};
ghost use Rattle.claims.specs.Lent.{principal_in};

use crate::Principal;
use crate::lent::{above, limit_of, principal_in};
use crate::number::is_written;
use crate::tree::leads_up;

// How many counts of a principal are above 0, and how many of them are for pages at V and above.
#[derive(Clone, Copy)]
struct Spent {
    all: u16,
    high: u16,
}

#[tactic(auto, using(crate::proofs::Looping::parts_above, crate::proofs::Looping::part_high, crate::proofs::Counting::above_length))]
fn spent_of(v: u16, window: &[u16]) -> Spent
    requires { length window.now ≤ 65535 }
    ensures { (result.all ≡ above window.now) × (result.high ≡ above (drop v window.now)) }
{
    let n = (v as usize).min(window.len());
    let high = above(&window[n..]);
    Spent {
        all: above(&window[..n]) + high,
        high,
    }
}

// The number is one that a principal is written as, and its counts are 0 where they must be.
fn entry_sound(number: u64, spent: Spent) -> bool
    ensures { result ≡ (written 0 number && (((principal_from number).being || eqb spent.all 0) && eqb spent.high 0)) }
{
    let q = Principal::from(number);
    is_written(number) & ((q.being | (spent.all == 0)) & (spent.high == 0))
}

fn is_nobody(q: Principal) -> bool
    ensures { result ≡ is_nobody q }
{
    q == Principal::default()
}

fn is_root(q: Principal) -> bool
    ensures { result ≡ root_sound q }
{
    q.being & ((q.holder == 0) & (q.parent == 0))
}

#[tactic(auto, using(crate::proofs::Testing::being_tested, crate::proofs::Testing::nobody_tested))]
fn principal_sound(principals: &[u64], p: usize) -> bool
    ensures { (counts : List ℕ) → result ≡ principal_sound (claims_in principals.now counts) p (principal_in principals.now p) }
{
    let q = principal_in(principals, p);
    if q.being {
        let parent = principal_in(principals, q.parent as usize);
        let up = leads_up(principals, 0, p);
        return ((q.holder <= 7) & parent.being) & up;
    }
    is_nobody(q)
}

// The claims' part of "A state is well formed", on numbers.
pub fn claims_sound(v: u16, principals: &[u64], counts: &[u16]) -> bool
    ensures { result ≡ sound_in v principals.now counts.now }
{
    if !((principals.len() == 32) & (counts.len() == 8192)) {
        return false;
    }
    let mut sound = is_root(principal_in(principals, 0));
    let mut total: u32 = 0;
    for p in 0..32 {
        let here = spent_of(v, &counts[256 * p..256 * p + 256]);
        let number = principals[p];
        sound = sound & (entry_sound(number, here) & principal_sound(principals, p));
        total += limit_of(number, here.all);
    }
    sound & (total == 8192)
}
