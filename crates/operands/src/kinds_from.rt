// Made by tools/kinds from the enum of calls: not to be changed here.
// Calls made of numbers, each cut to its operand's width.
ghost use Rattle.std.specs.Prelude.{◌≡◌};
ghost use Rattle.operands.specs.Numbers.{call_from};

use crate::making::{byte_at, two_at};
use calls::Call;
use capabilities::slices::at_or;
use pages::{Frame, VirtualPage};

// The call that numbers make. The table answers with take for a number that is no command: no `TryFrom`, since the clause of `call_from`
// promises a call of any numbers.
#[tactic(auto, using(crate::proofs::Commands::made, crate::proofs::Commands::no_command), unfolding(crate::specs::Numbers::call_from))]
pub fn call_from(numbers: &[u64]) -> Call
    ensures { result ≡ call_from numbers.now }
{
    match at_or(numbers, 0, 0) {
        2 => Call::Split {
            party: byte_at(numbers, 1),
            base: two_at(numbers, 2),
            len: two_at(numbers, 3),
        },
        3 => Call::Merge {
            party: byte_at(numbers, 1),
            base: two_at(numbers, 2),
        },
        4 => Call::Give {
            party: byte_at(numbers, 1),
            base: two_at(numbers, 2),
            to: byte_at(numbers, 3),
        },
        5 => Call::Revoke {
            party: byte_at(numbers, 1),
            base: two_at(numbers, 2),
        },
        6 => Call::Sweep {
            party: byte_at(numbers, 1),
            n: two_at(numbers, 2),
        },
        7 => Call::Collect {
            party: byte_at(numbers, 1),
        },
        8 => Call::Map {
            party: byte_at(numbers, 1),
            page: VirtualPage(byte_at(numbers, 2)),
            frame: Frame(byte_at(numbers, 3)),
        },
        9 => Call::Unmap {
            party: byte_at(numbers, 1),
            page: VirtualPage(byte_at(numbers, 2)),
        },
        10 => Call::Zero {
            party: byte_at(numbers, 1),
            frame: Frame(byte_at(numbers, 2)),
        },
        11 => Call::Load {
            party: byte_at(numbers, 1),
            a: byte_at(numbers, 2),
            off: two_at(numbers, 3),
            d: byte_at(numbers, 4),
        },
        12 => Call::Store {
            party: byte_at(numbers, 1),
            a: byte_at(numbers, 2),
            off: two_at(numbers, 3),
            s: byte_at(numbers, 4),
        },
        13 => Call::Narrow {
            party: byte_at(numbers, 1),
            s: byte_at(numbers, 2),
            off: two_at(numbers, 3),
            len: two_at(numbers, 4),
            mask: byte_at(numbers, 5),
            d: byte_at(numbers, 6),
        },
        14 => Call::Number {
            party: byte_at(numbers, 1),
            d: byte_at(numbers, 2),
            value: at_or(numbers, 3, 0),
        },
        15 => Call::Grant {
            party: byte_at(numbers, 1),
            s: byte_at(numbers, 2),
            to: byte_at(numbers, 3),
        },
        16 => Call::Receive {
            party: byte_at(numbers, 1),
            d: byte_at(numbers, 2),
        },
        17 => Call::TakeMasked {
            party: byte_at(numbers, 1),
            base: two_at(numbers, 2),
            reg: byte_at(numbers, 3),
            mask: byte_at(numbers, 4),
        },
        18 => Call::Create {
            party: byte_at(numbers, 1),
            parent: byte_at(numbers, 2),
            child: byte_at(numbers, 3),
            limit: two_at(numbers, 4),
            holder: byte_at(numbers, 5),
        },
        19 => Call::Claim {
            party: byte_at(numbers, 1),
            principal: byte_at(numbers, 2),
            page: VirtualPage(byte_at(numbers, 3)),
        },
        20 => Call::Release {
            party: byte_at(numbers, 1),
            principal: byte_at(numbers, 2),
            page: VirtualPage(byte_at(numbers, 3)),
        },
        21 => Call::Destroy {
            party: byte_at(numbers, 1),
            principal: byte_at(numbers, 2),
        },
        _ => Call::Take {
            party: byte_at(numbers, 1),
            base: two_at(numbers, 2),
            reg: byte_at(numbers, 3),
        },
    }
}
