// Made by tools/kinds from the enum of calls: not to be changed here.
// Bytes read as calls. One arm a kind in one function, though it is long: a function a kind behind it would say no more. The length
// is tested first, so that no arm fails: with a test in each arm a command of a session took 28 instructions more.
ghost use Rattle.std.specs.Prelude.{◌≡◌, ◌≤◌, length};
ghost use Rattle.calls.specs.Commands.{call_at, command_length, last_byte};
ghost use Rattle.calls.specs.Reader.{Reads};

use crate::Call;
use pages::{Frame, VirtualPage};

// How many bytes a command has, by its first; 0 for a byte that is none.
#[tactic(auto, using(crate::proofs::Cases::no_length))]
fn length_of(command: u8) -> usize
    ensures { result ≡ command_length command }
{
    match command {
        0x01 => 5,
        0x02 => 6,
        0x03 => 4,
        0x04 => 5,
        0x05 => 4,
        0x06 => 4,
        0x07 => 2,
        0x08 => 4,
        0x09 => 3,
        0x0A => 3,
        0x0B => 6,
        0x0C => 6,
        0x0D => 9,
        0x0E => 11,
        0x0F => 4,
        0x10 => 3,
        0x11 => 6,
        0x12 => 7,
        0x13 => 4,
        0x14 => 4,
        0x15 => 3,
        _ => 0,
    }
}

// The call of a command's byte and the operands after it. In the last arm only the last command is left.
#[tactic(auto, using(crate::proofs::Bytes::two_bytes, crate::proofs::Bytes::eight_bytes))]
fn call_of(command: u8, input: &[u8]) -> Call
    requires { ((1 ≤ command) × (command ≤ last_byte)) × (command_length command ≤ length input.now) }
    ensures { result ≡ call_at command input.now }
{
    match command {
        0x01 => {
            let [_, party, base1, base0, reg, ..] = *input else {
                unreachable!();
            };
            let base = u16::from_be_bytes([base1, base0]);
            Call::Take { party, base, reg }
        }
        0x02 => {
            let [_, party, base1, base0, len1, len0, ..] = *input else {
                unreachable!();
            };
            let base = u16::from_be_bytes([base1, base0]);
            let len = u16::from_be_bytes([len1, len0]);
            Call::Split { party, base, len }
        }
        0x03 => {
            let [_, party, base1, base0, ..] = *input else {
                unreachable!();
            };
            let base = u16::from_be_bytes([base1, base0]);
            Call::Merge { party, base }
        }
        0x04 => {
            let [_, party, base1, base0, to, ..] = *input else {
                unreachable!();
            };
            let base = u16::from_be_bytes([base1, base0]);
            Call::Give { party, base, to }
        }
        0x05 => {
            let [_, party, base1, base0, ..] = *input else {
                unreachable!();
            };
            let base = u16::from_be_bytes([base1, base0]);
            Call::Revoke { party, base }
        }
        0x06 => {
            let [_, party, n1, n0, ..] = *input else {
                unreachable!();
            };
            let n = u16::from_be_bytes([n1, n0]);
            Call::Sweep { party, n }
        }
        0x07 => {
            let [_, party, ..] = *input else {
                unreachable!();
            };
            Call::Collect { party }
        }
        0x08 => {
            let [_, party, page, frame, ..] = *input else {
                unreachable!();
            };
            Call::Map {
                party,
                page: VirtualPage(page),
                frame: Frame(frame),
            }
        }
        0x09 => {
            let [_, party, page, ..] = *input else {
                unreachable!();
            };
            Call::Unmap {
                party,
                page: VirtualPage(page),
            }
        }
        0x0A => {
            let [_, party, frame, ..] = *input else {
                unreachable!();
            };
            Call::Zero {
                party,
                frame: Frame(frame),
            }
        }
        0x0B => {
            let [_, party, a, off1, off0, d, ..] = *input else {
                unreachable!();
            };
            let off = u16::from_be_bytes([off1, off0]);
            Call::Load { party, a, off, d }
        }
        0x0C => {
            let [_, party, a, off1, off0, s, ..] = *input else {
                unreachable!();
            };
            let off = u16::from_be_bytes([off1, off0]);
            Call::Store { party, a, off, s }
        }
        0x0D => {
            let [_, party, s, off1, off0, len1, len0, mask, d, ..] = *input else {
                unreachable!();
            };
            let off = u16::from_be_bytes([off1, off0]);
            let len = u16::from_be_bytes([len1, len0]);
            Call::Narrow {
                party,
                s,
                off,
                len,
                mask,
                d,
            }
        }
        0x0E => {
            let [_, party, d, v7, v6, v5, v4, v3, v2, v1, v0, ..] = *input else {
                unreachable!();
            };
            let value = u64::from_be_bytes([v7, v6, v5, v4, v3, v2, v1, v0]);
            Call::Number { party, d, value }
        }
        0x0F => {
            let [_, party, s, to, ..] = *input else {
                unreachable!();
            };
            Call::Grant { party, s, to }
        }
        0x10 => {
            let [_, party, d, ..] = *input else {
                unreachable!();
            };
            Call::Receive { party, d }
        }
        0x11 => {
            let [_, party, base1, base0, reg, mask, ..] = *input else {
                unreachable!();
            };
            let base = u16::from_be_bytes([base1, base0]);
            Call::TakeMasked {
                party,
                base,
                reg,
                mask,
            }
        }
        0x12 => {
            let [_, party, parent, child, limit1, limit0, holder, ..] = *input else {
                unreachable!();
            };
            let limit = u16::from_be_bytes([limit1, limit0]);
            Call::Create {
                party,
                parent,
                child,
                limit,
                holder,
            }
        }
        0x13 => {
            let [_, party, principal, page, ..] = *input else {
                unreachable!();
            };
            Call::Claim {
                party,
                principal,
                page: VirtualPage(page),
            }
        }
        0x14 => {
            let [_, party, principal, page, ..] = *input else {
                unreachable!();
            };
            Call::Release {
                party,
                principal,
                page: VirtualPage(page),
            }
        }
        _ => {
            let [_, party, principal, ..] = *input else {
                unreachable!();
            };
            Call::Destroy { party, principal }
        }
    }
}

// The call at the beginning of an input and how many bytes it used, or refusal 3. Nothing of its operands is judged here.
#[tactic(auto, using(crate::proofs::Inputs::no_command, crate::proofs::Inputs::cut_short, crate::proofs::Inputs::call_read), unfolding(crate::specs::Reader::read_of, crate::specs::Reader::whole))]
pub fn read_call(input: &[u8]) -> Option<(Call, usize)>
    ensures { Reads input.now result }
{
    let command = *input.first()?;
    let used = length_of(command);
    if used == 0 || input.len() < used {
        return None;
    }
    Some((call_of(command, input), used))
}
