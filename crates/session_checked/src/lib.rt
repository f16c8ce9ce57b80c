// A whole session with the state tested at every command. It stands alone, so that the session without the test is compiled without it.
#![tactic(auto)]

ghost use Rattle.std.specs.Prelude.{◌≡◌};
ghost use Rattle.session_rules.specs.Session.{lines_of, printed, print_of};

use printing::print;

// As `cetomuhi_session`, with the state tested at every command.
pub fn cetomuhi_session_checked(input: &[u8], out: &mut [u8]) -> usize
    ensures { printed result out.new ≡ print_of (lines_of input.now) out.old }
{
    print::<true>(input, out)
}
