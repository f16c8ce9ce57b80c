// The walk over all short histories. From a state it tries each listed command, and goes on from where a granted one leads with one
// command less to come; so it ends.
ghost use Rattle.std.specs.Prelude.{◌≡◌, ◌++◌, ◌+◌, ◌*◌, ◌≤◌, length, take, option_map};
ghost use Rattle.calls.specs.Commands.{bytes_of};
ghost use Rattle.lines.specs.Laid.{Laid};
ghost use Rattle.step.specs.Entries.{step_on};
ghost use Rattle.session_rules.specs.Session.{printed, print_of};
ghost use Rattle.short_histories.specs.Histories.{text};
ghost use Rattle.short_histories.specs.Text.{hex_line};
ghost use Rattle.short_histories.specs.Walk.{leading, led_by, lines_on};

use crate::LENGTH;
use crate::commands::{COUNT, command};
use crate::digits::digit;
use calls::{Call, write_call};
use entries::State;

// The most commands of a history.
const MOST: u8 = 3;

// The most bytes of one, six a command.
const LONGEST: usize = 18;

// A state and the memory that it is lent.
#[derive(Clone, Copy)]
struct Machine {
    state: State,
    cells: [u64; 16],
    tags: [u8; 16],
}

// A call on a copy of the state and its memory. Made part of its caller, since a refused one is looked at no further: from a function apart
// all its 19 KB come back, as zeros, which took a third more time.
#[inline(always)]
fn attempt(machine: Machine, call: Call) -> Option<Machine>
    ensures { option_map (λ m. leading m.state.arrays m.cells m.tags) result ≡ led_by (step_on machine.state.arrays call machine.cells machine.tags) }
{
    let mut cells = machine.cells;
    let mut tags = machine.tags;
    let done = machine.state.call(call, &mut cells, &mut tags);
    if done.answer.code != 0 {
        return None;
    }
    Some(Machine {
        state: done.state,
        cells,
        tags,
    })
}

// Puts a history with one command more first in a buffer, and answers how long it is.
fn longer(history: &[u8], call: Call, bytes: &mut [u8; LONGEST]) -> usize
    requires { length history.now + length (bytes_of call) ≤ 18 }
    ensures bytes_value { take result bytes.new ≡ history.now ++ bytes_of call }
    ensures len_value { result ≡ length history.now + length (bytes_of call) }
{
    let at = history.len();
    bytes[..at].copy_from_slice(history);
    match write_call(call, &mut bytes[at..]) {
        Some(len) => at + len,
        None => at,
    }
}

// Puts bytes as a line at a place that has room for it, and answers where it ends.
fn put_line(bytes: &[u8], at: usize, out: &mut [u8]) -> usize
    requires { at + length (hex_line bytes.now) ≤ length out.old }
    ensures { Laid (hex_line bytes.now) at out.old result out.new }
{
    let mut end = at;
    for byte in bytes {
        out[end] = digit(*byte / 16);
        out[end + 1] = digit(*byte % 16);
        end += 2;
    }
    out[end] = b'\n';
    end + 1
}

// The lines of all histories that begin with one and have so many commands more, put at a place that has room for them; answers
// where they end.
fn extend(machine: Machine, history: &[u8], more: u8, at: usize, out: &mut [u8]) -> usize
    requires more_bound { length history.now + 6 * more ≤ 18 }
    requires tags_in_bounds { at + length (lines_on more history.now machine.state.arrays machine.cells machine.tags) ≤ length out.old }
    ensures { Laid (lines_on more history.now machine.state.arrays machine.cells machine.tags) at out.old result out.new }
{
    if more == 0 {
        return put_line(history, at, out);
    }
    let mut end = at;
    for k in 0..COUNT {
        let call = command(k);
        if let Some(next) = attempt(machine, call) {
            let mut bytes = [0; LONGEST];
            let len = longer(history, call, &mut bytes);
            end = extend(next, &bytes[..len], more - 1, end, out);
        }
    }
    end
}

// The lines of all short histories, shorter ones first, put first in a buffer that has room for them; answers how long they are.
fn put_all(out: &mut [u8]) -> usize
    requires { length text ≤ length out.old }
    ensures { Laid text 0 out.old result out.new }
{
    let machine = Machine {
        state: State::start(1, 1).state,
        cells: [0; 16],
        tags: [0; 16],
    };
    let mut end = 0;
    for count in 0..=MOST {
        end = extend(machine, &[], count, end, out);
    }
    end
}

// Puts the lines first in a lent buffer and answers how long they are. If they do not fit, the answer is 0 and the buffer is as it was.
pub fn list(out: &mut [u8]) -> usize
    ensures { printed result out.new ≡ print_of text out.old }
{
    if out.len() < LENGTH {
        return 0;
    }
    put_all(out)
}
