// One principal as a number, and back.
ghost use Rattle.std.specs.Prelude.{ℕ, ◌≡◌};
ghost use Rattle.claims.specs.Numbers.{principal_from, principal_code, written};

use crate::Principal;

impl From<u64> for Principal {
    ghost from_gives = { λ number q. q ≡ principal_from number };

    #[tactic(auto, unfolding(crate::specs::Numbers::principal_from))]
    fn from(number: u64) -> Principal {
        Principal {
            being: 4294967296 <= number,
            holder: (number / 16777216 % 256) as u8,
            parent: (number / 65536 % 256) as u8,
            unspent: (number % 65536) as u16,
        }
    }
}

impl From<Principal> for u64 {
    ghost from_gives = { λ q number. number ≡ principal_code q };

    #[tactic(auto, using(capabilities::proofs::Choice::byte_pick), unfolding(crate::specs::Numbers::principal_code))]
    fn from(q: Principal) -> u64 {
        let tree = q.unspent as u64 + 65536 * (q.parent as u64);
        tree + 16777216 * (q.holder as u64) + 4294967296 * (q.being as u64)
    }
}

// The bits above 32 are 0.
#[tactic(auto, unfolding(crate::specs::Numbers::written))]
pub fn is_written(number: u64) -> bool
    ensures { (p : ℕ) → result ≡ written p number }
{
    number < 8589934592
}
