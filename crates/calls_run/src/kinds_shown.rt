// Made by tools/kinds from the enum of calls: not to be changed here.
use calls::Call;
use std::fmt;

// A call as its word and its operands, in the order of their bytes.
#[derive(Clone, Copy)]
pub(crate) struct Shown(pub Call);

impl fmt::Display for Shown {
    fn fmt<W: fmt::Write>(&self, f: &mut fmt::Formatter<W>) -> fmt::Result {
        match self.0 {
            Call::Take { party, base, reg } => write!(f, "take {party} {base} {reg}"),
            Call::Split { party, base, len } => write!(f, "split {party} {base} {len}"),
            Call::Merge { party, base } => write!(f, "merge {party} {base}"),
            Call::Give { party, base, to } => write!(f, "give {party} {base} {to}"),
            Call::Revoke { party, base } => write!(f, "revoke {party} {base}"),
            Call::Sweep { party, n } => write!(f, "sweep {party} {n}"),
            Call::Collect { party } => write!(f, "collect {party}"),
            Call::Map { party, page, frame } => write!(f, "map {party} {} {}", page.0, frame.0),
            Call::Unmap { party, page } => write!(f, "unmap {party} {}", page.0),
            Call::Zero { party, frame } => write!(f, "zero {party} {}", frame.0),
            Call::Load { party, a, off, d } => write!(f, "load {party} {a} {off} {d}"),
            Call::Store { party, a, off, s } => write!(f, "store {party} {a} {off} {s}"),
            Call::Narrow {
                party,
                s,
                off,
                len,
                mask,
                d,
            } => write!(f, "narrow {party} {s} {off} {len} {mask} {d}"),
            Call::Number { party, d, value } => write!(f, "number {party} {d} {value}"),
            Call::Grant { party, s, to } => write!(f, "grant {party} {s} {to}"),
            Call::Receive { party, d } => write!(f, "receive {party} {d}"),
            Call::TakeMasked {
                party,
                base,
                reg,
                mask,
            } => write!(f, "take {party} {base} {reg} {mask}"),
            Call::Create {
                party,
                parent,
                child,
                limit,
                holder,
            } => write!(f, "create {party} {parent} {child} {limit} {holder}"),
            Call::Claim {
                party,
                principal,
                page,
            } => write!(f, "claim {party} {principal} {}", page.0),
            Call::Release {
                party,
                principal,
                page,
            } => write!(f, "release {party} {principal} {}", page.0),
            Call::Destroy { party, principal } => write!(f, "destroy {party} {principal}"),
        }
    }
}
