// Made by tools/kinds from the enum of calls: not to be changed here.
// Calls written as bytes.
ghost use Rattle.std.specs.Prelude.{◌≡◌};
ghost use Rattle.calls.specs.Writer.{outcome_of, write_of};

use crate::Call;
use crate::writer::put;

// Puts a call's bytes first in a lent buffer, keeps the rest and answers how many they are; too short a buffer, refusal 3, is left as it was.
#[tactic(auto, unfolding(crate::specs::Writer::write_of))]
pub fn write_call(call: Call, out: &mut [u8]) -> Option<usize>
    ensures { outcome_of result out.new ≡ write_of call out.old }
{
    match call {
        Call::Take { party, base, reg } => {
            let [base1, base0] = base.to_be_bytes();
            put(&[0x01, party, base1, base0, reg], out)
        }
        Call::Split { party, base, len } => {
            let [base1, base0] = base.to_be_bytes();
            let [len1, len0] = len.to_be_bytes();
            put(&[0x02, party, base1, base0, len1, len0], out)
        }
        Call::Merge { party, base } => {
            let [base1, base0] = base.to_be_bytes();
            put(&[0x03, party, base1, base0], out)
        }
        Call::Give { party, base, to } => {
            let [base1, base0] = base.to_be_bytes();
            put(&[0x04, party, base1, base0, to], out)
        }
        Call::Revoke { party, base } => {
            let [base1, base0] = base.to_be_bytes();
            put(&[0x05, party, base1, base0], out)
        }
        Call::Sweep { party, n } => {
            let [n1, n0] = n.to_be_bytes();
            put(&[0x06, party, n1, n0], out)
        }
        Call::Collect { party } => put(&[0x07, party], out),
        Call::Map { party, page, frame } => put(&[0x08, party, page.0, frame.0], out),
        Call::Unmap { party, page } => put(&[0x09, party, page.0], out),
        Call::Zero { party, frame } => put(&[0x0A, party, frame.0], out),
        Call::Load { party, a, off, d } => {
            let [off1, off0] = off.to_be_bytes();
            put(&[0x0B, party, a, off1, off0, d], out)
        }
        Call::Store { party, a, off, s } => {
            let [off1, off0] = off.to_be_bytes();
            put(&[0x0C, party, a, off1, off0, s], out)
        }
        Call::Narrow {
            party,
            s,
            off,
            len,
            mask,
            d,
        } => {
            let [off1, off0] = off.to_be_bytes();
            let [len1, len0] = len.to_be_bytes();
            put(&[0x0D, party, s, off1, off0, len1, len0, mask, d], out)
        }
        Call::Number { party, d, value } => {
            let [v7, v6, v5, v4, v3, v2, v1, v0] = value.to_be_bytes();
            put(&[0x0E, party, d, v7, v6, v5, v4, v3, v2, v1, v0], out)
        }
        Call::Grant { party, s, to } => put(&[0x0F, party, s, to], out),
        Call::Receive { party, d } => put(&[0x10, party, d], out),
        Call::TakeMasked {
            party,
            base,
            reg,
            mask,
        } => {
            let [base1, base0] = base.to_be_bytes();
            put(&[0x11, party, base1, base0, reg, mask], out)
        }
        Call::Create {
            party,
            parent,
            child,
            limit,
            holder,
        } => {
            let [limit1, limit0] = limit.to_be_bytes();
            put(&[0x12, party, parent, child, limit1, limit0, holder], out)
        }
        Call::Claim {
            party,
            principal,
            page,
        } => put(&[0x13, party, principal, page.0], out),
        Call::Release {
            party,
            principal,
            page,
        } => put(&[0x14, party, principal, page.0], out),
        Call::Destroy { party, principal } => put(&[0x15, party, principal], out),
    }
}
