// Principals and counts as lent arrays of numbers, read and written in place. They stay two parameters, and are no struct: C lends them apart.
ghost use Rattle.std.specs.Prelude.{◌+◌, ◌*◌, ◌≤◌, ◌≡◌, length};
ghost use Rattle.capabilities.specs.Lists.{pick};
ghost use Rattle.claims.specs.Claims.{above};
ghost use Rattle.claims.specs.Numbers.{principal_from};
ghost use Rattle.claims.specs.Lent.{principal_in, count_in, unspent_put, any_counts};

use crate::Principal;
use capabilities::slices::{at_or, put};

// The principal of this number; past the end none is in being.
pub fn principal_in(principals: &[u64], p: usize) -> Principal
    ensures { result ≡ principal_in principals.now p }
{
    Principal::from(at_or(principals, p, 0))
}

// The principal gets another part of its limit unspent. Past the end nothing is written.
pub(crate) fn put_unspent(principals: &mut [u64], p: usize, unspent: u16)
    ensures { principals.new ≡ unspent_put principals.old p unspent }
{
    let q = principal_in(&principals[..], p);
    put(principals, p, u64::from(Principal { unspent, ..q }));
}

// Where the count of a principal for a page stands.
pub(crate) fn place(p: u8, page: u8) -> usize
    ensures { result ≡ 256 * p + page }
{
    256 * (p as usize) + page as usize
}

// How often a principal claims a page; 0 past the end.
pub fn count_in(counts: &[u16], p: u8, page: u8) -> u16
    ensures { result ≡ count_in counts.now p page }
{
    at_or(counts, place(p, page), 0)
}

// 22: whether one of the 32 principals counts the page above 0.
#[tactic(auto, unfolding(crate::specs::Lent::any_counts))]
pub fn any_counts(counts: &[u16], page: u8) -> bool
    ensures { result ≡ any_counts 32 counts.now page }
{
    let mut any = false;
    for p in 0..32 {
        any = any | (0 < count_in(counts, p, page));
    }
    any
}

// How many counts are above 0: a `u16` holds that for a window, and in 16 bits the compiler takes eight counts at a time.
#[tactic(auto, using(crate::proofs::Counting::above_more, capabilities::proofs::Choice::byte_pick), unfolding(crate::specs::Claims::above))]
pub(crate) fn above(counts: &[u16]) -> u16
    requires { length counts.now ≤ 65535 }
    ensures { result ≡ above counts.now }
{
    let mut n: u16 = 0;
    for count in counts {
        n += (0 < *count) as u16;
    }
    n
}

// The limit, spent and unspent, of the principal of a number that counts so many pages.
pub(crate) fn limit_of(number: u64, spent: u16) -> u32
    ensures { result ≡ pick (principal_from number).being spent 0 + (principal_from number).unspent }
{
    let q = Principal::from(number);
    let spent = if q.being { spent } else { 0 };
    spent as u32 + q.unspent as u32
}
