// A whole session with the state tested at every command, as C calls it: it answers as the function of that name in `session_checked`
// does.
#![tactic(auto)]

ghost use Rattle.std.specs.Prelude.{◌≡◌};
ghost use Rattle.session_rules.specs.Session.{lines_of, printed, print_of};

// As `cetomuhi_session`, with the state tested at every command.
#[unsafe(no_mangle)]
pub extern "C" fn cetomuhi_session_checked(input: &[u8], out: &mut [u8]) -> usize
    ensures { printed result out.new ≡ print_of (lines_of input.now) out.old }
{
    session_checked::cetomuhi_session_checked(input, out)
}
