// A session over memory of its own: the lines of its start and of all its commands.
ghost use Rattle.std.specs.Prelude.{◌≡◌, true, ◌≤◌, ◌<◌, ◌+◌, ◌*◌, length, take};
ghost use Rattle.pages.specs.Layer.{in_range};
ghost use Rattle.machine.specs.Formed.{fresh};
ghost use Rattle.arrays.specs.Reading.{state_of};
ghost use Rattle.arrays.specs.Lent.{held, left_in, Ready, SameLists};
ghost use Rattle.lines.specs.Laid.{Laid};
ghost use Rattle.session_rules.specs.Session.{zeroed, lines_from, lines_read, lines_of, Spared};
ghost use Rattle.step.specs.Entries.{ran_on, command_judged_on};

use arrays::{Answer, Machine, Numbers};
use capabilities::refusal::Refusal;
use formed::formed;
use formed::fresh::open;
use lines::put_line;
use pages::layer::in_range;
use session_rules::ends;
use step::{Ended, command};

// The bytes of an input that are looked at.
const LIMIT: usize = 32768;

// The session's loop is one piece of code with its start, so that the lengths of the lists are known where a command is done: with calls
// between them a short command takes a third longer.

// One command. The arrays are known to be well formed: testing them every time, as CHECKED asks, changes no answer.
#[inline(always)]
fn one<const CHECKED: bool>(machine: &mut Machine<'_>, input: &[u8], at: usize) -> Ended
    requires { Ready machine.old }
    ensures lists { SameLists machine.new machine.old }
    ensures judged { ran_on (left_in result.answer machine.new) result.used ≡ command_judged_on (held machine.old) input.now at machine.old.cells.now machine.old.tags.now }
{
    if CHECKED && !formed(machine.view()) {
        return Ended {
            answer: Answer::refused(Refusal::State),
            used: 0,
        };
    }
    command(machine, input, at)
}

// The lines of all commands after the start's, put from `begin` on; answers where they end.
#[inline(always)]
fn commands<const CHECKED: bool>(
    machine: &mut Machine<'_>,
    input: &[u8],
    begin: usize,
    out: &mut [u8],
) -> usize
    requires ready { Ready machine.old }
    requires in_bounds { 3 ≤ length input.now }
    requires input_len_bound { length input.now ≤ 32768 }
    requires begin_bound { begin ≤ 26 }
    ensures laid { Laid (lines_from (length input.now) (state_of (held machine.old)) input.now 3 machine.old.cells.now machine.old.tags.now) begin out.old result out.new }
    ensures upper_bound { result ≤ 13 * length input.now }
{
    let mut at: usize = 3;
    let mut end = begin;
    // No `for`: the place moves by as many bytes as the command used.
    while at < input.len() {
        let done = one::<CHECKED>(machine, input, at);
        let answer = done.answer;
        end = put_line(answer.code, answer.number, answer.tag, end as u32, out);
        if ends(answer.code) {
            return end;
        }
        at += done.used;
    }
    end
}

// The same from a fresh state, over zeroed memory of 16 F cells.
#[inline(always)]
fn started<const CHECKED: bool>(v: u16, f: u16, input: &[u8], begin: usize, out: &mut [u8]) -> usize
    requires f_value { in_range v f ≡ true }
    requires in_bounds { 3 ≤ length input.now }
    requires input_len_bound { length input.now ≤ 32768 }
    requires begin_bound { begin ≤ 26 }
    ensures laid { Laid (lines_from (length input.now) (fresh v f) input.now 3 (zeroed f) (zeroed f)) begin out.old result out.new }
    ensures upper_bound { result ≤ 13 * length input.now }
{
    let n = 16 * f as usize;
    let mut machine = Machine {
        nums: Numbers::default(),
        words: &mut [0; 64],
        marks: &mut [0; 64],
        mail: &mut [0; 8],
        flags: &mut [0; 8],
        rows: &mut [0; 64],
        pages: &mut [0; 256],
        frames: &mut [0; 128],
        principals: &mut [0; 32],
        counts: &mut [0; 8192],
        cells: &mut [0; 2048][..n],
        tags: &mut [0; 2048][..n],
    };
    open(&mut machine, v, f);
    commands::<CHECKED>(&mut machine, input, begin, out)
}

// The lines of an input that is looked at whole.
fn read_lines<const CHECKED: bool>(input: &[u8], out: &mut [u8]) -> usize
    requires { length input.now ≤ 32768 }
    ensures laid { Laid (lines_read input.now) 0 out.old result out.new }
    ensures spared { Spared result input.now }
{
    let [high, low, f, ..] = *input else {
        return put_line(1, 0, false, 0, out);
    };
    let v = u16::from_be_bytes([high, low]);
    let f = f as u16;
    if !in_range(v, f) {
        return put_line(1, 0, false, 0, out);
    }
    let end = put_line(0, 0, false, 0, out);
    started::<CHECKED>(v, f, input, end, out)
}

// How many bytes of an input are looked at.
pub(crate) fn looked_at(input: &[u8]) -> usize
    ensures value { result ≡ length (take 32768 input.now) }
    ensures upper_bound { result ≤ 32768 }
{
    input.len().min(LIMIT)
}

// The lines of a whole session, put first in a lent buffer as far as each fits; answers how long they are. With CHECKED the
// state is tested at every command.
pub(crate) fn lines<const CHECKED: bool>(input: &[u8], out: &mut [u8]) -> usize
    ensures laid { Laid (lines_of input.now) 0 out.old result out.new }
    ensures spared { Spared result (take 32768 input.now) }
{
    let n = looked_at(input);
    read_lines::<CHECKED>(&input[..n], out)
}
