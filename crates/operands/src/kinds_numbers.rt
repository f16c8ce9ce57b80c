// Made by tools/kinds from the enum of calls: not to be changed here.
// Calls as seven numbers: the command, its operands, and 0 after them. No `From<Call>`: the array and `Call` are both of other crates.
ghost use Rattle.std.specs.Prelude.{◌≡◌};
ghost use Rattle.operands.specs.Numbers.{numbers_of};

use calls::Call;

// A call's seven numbers.
#[tactic(auto, unfolding(crate::specs::Numbers::numbers_of))]
pub fn numbers_of(call: Call) -> [u64; 7]
    ensures { result ≡ numbers_of call }
{
    match call {
        Call::Take { party, base, reg } => [1, party as u64, base as u64, reg as u64, 0, 0, 0],
        Call::Split { party, base, len } => [2, party as u64, base as u64, len as u64, 0, 0, 0],
        Call::Merge { party, base } => [3, party as u64, base as u64, 0, 0, 0, 0],
        Call::Give { party, base, to } => [4, party as u64, base as u64, to as u64, 0, 0, 0],
        Call::Revoke { party, base } => [5, party as u64, base as u64, 0, 0, 0, 0],
        Call::Sweep { party, n } => [6, party as u64, n as u64, 0, 0, 0, 0],
        Call::Collect { party } => [7, party as u64, 0, 0, 0, 0, 0],
        Call::Map { party, page, frame } => [
            8,
            party as u64,
            page.0 as u64,
            frame.0 as u64,
            0,
            0,
            0,
        ],
        Call::Unmap { party, page } => [9, party as u64, page.0 as u64, 0, 0, 0, 0],
        Call::Zero { party, frame } => [10, party as u64, frame.0 as u64, 0, 0, 0, 0],
        Call::Load { party, a, off, d } => [11, party as u64, a as u64, off as u64, d as u64, 0, 0],
        Call::Store { party, a, off, s } => [
            12,
            party as u64,
            a as u64,
            off as u64,
            s as u64,
            0,
            0,
        ],
        Call::Narrow {
            party,
            s,
            off,
            len,
            mask,
            d,
        } => [
            13,
            party as u64,
            s as u64,
            off as u64,
            len as u64,
            mask as u64,
            d as u64,
        ],
        Call::Number { party, d, value } => [14, party as u64, d as u64, value, 0, 0, 0],
        Call::Grant { party, s, to } => [15, party as u64, s as u64, to as u64, 0, 0, 0],
        Call::Receive { party, d } => [16, party as u64, d as u64, 0, 0, 0, 0],
        Call::TakeMasked {
            party,
            base,
            reg,
            mask,
        } => [17, party as u64, base as u64, reg as u64, mask as u64, 0, 0],
        Call::Create {
            party,
            parent,
            child,
            limit,
            holder,
        } => [
            18,
            party as u64,
            parent as u64,
            child as u64,
            limit as u64,
            holder as u64,
            0,
        ],
        Call::Claim {
            party,
            principal,
            page,
        } => [19, party as u64, principal as u64, page.0 as u64, 0, 0, 0],
        Call::Release {
            party,
            principal,
            page,
        } => [20, party as u64, principal as u64, page.0 as u64, 0, 0, 0],
        Call::Destroy { party, principal } => [21, party as u64, principal as u64, 0, 0, 0, 0],
    }
}
