// A whole session of the machine: from input bytes to printed lines in a lent buffer.
#![tactic(auto)]

ghost use Rattle.std.specs.Prelude.{◌≡◌};
ghost use Rattle.session_rules.specs.Session.{lines_of, printed, print_of};

use printing::print;

// Puts the lines of a session first in a lent buffer and answers how long they are. If they do not fit, the answer is 0 and the buffer is as it was.
pub fn cetomuhi_session(input: &[u8], out: &mut [u8]) -> usize
    ensures { printed result out.new ≡ print_of (lines_of input.now) out.old }
{
    print::<false>(input, out)
}
