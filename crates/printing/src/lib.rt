// The lines of a session, put into a lent buffer if they fit. The state is tested at every command, or not: the lines are the same.
#![tactic(auto)]

ghost use Rattle.std.specs.Prelude.{◌≡◌};
ghost use Rattle.session_rules.specs.Session.{lines_of, printed, print_of};

use crate::session::{lines, looked_at};

mod session;

// Counts the lines first, and puts them into the buffer if they fit.
fn print_counted<const CHECKED: bool>(input: &[u8], out: &mut [u8]) -> usize
    ensures { printed result out.new ≡ print_of (lines_of input.now) out.old }
{
    let len = lines::<CHECKED>(input, &mut []);
    if out.len() < len {
        return 0;
    }
    lines::<CHECKED>(input, out)
}

// Puts the lines first in the buffer, and answers how long they are; 0 with nothing written if they do not fit. They are counted
// first only if the buffer could be too short. With CHECKED the state is tested at every command.
pub fn print<const CHECKED: bool>(input: &[u8], out: &mut [u8]) -> usize
    ensures { printed result out.new ≡ print_of (lines_of input.now) out.old }
{
    if out.len() < 6 {
        return print_counted::<CHECKED>(input, out);
    }
    if out.len() < 13 * looked_at(input) {
        return print_counted::<CHECKED>(input, out);
    }
    lines::<CHECKED>(input, out)
}
