// Bytes read as a call at a place of a longer input.
ghost use Rattle.std.specs.Prelude.{drop};
ghost use Rattle.calls.specs.Reader.{Reads};

use crate::{Call, read_call};

// The call at a place of a longer input, which may lie past its end.
pub fn read_at(input: &[u8], at: usize) -> Option<(Call, usize)>
    ensures { Reads (drop at input.now) result }
{
    read_call(input.get(at..)?)
}
