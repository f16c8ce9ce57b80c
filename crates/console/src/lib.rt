// A session from standard input to standard output. What fails is said on standard error.
#![tactic(auto)]

ghost use Rattle.std.specs.Prelude.{◌≡◌, ◌≤◌, length, IfOk};

use std::error::Error;
use std::io::Read;
use std::{fmt, io};

// A session looks at no more.
const INPUT: usize = 32768;

// The lines of every session fit: 13 bytes for each byte of its input.
const OUTPUT: usize = 425984;

// Why the lines of a session were not printed.
#[derive(Clone, Copy, PartialEq, Eq, Debug)]
pub enum Failure {
    Unread,
    TooLong,
    Unwritten,
}

impl fmt::Display for Failure {
    fn fmt<W: fmt::Write>(&self, f: &mut fmt::Formatter<W>) -> fmt::Result {
        f.write_str(match self {
            Failure::Unread => "desk: standard input could not be read",
            Failure::TooLong => "desk: the lines do not fit",
            Failure::Unwritten => "desk: standard output could not be written",
        })
    }
}

impl Error for Failure {}

// Reads, in pieces as they come, until the buffer is full or the input ends; answers how many bytes it read. A loop by
// hand, since `read_to_end` needs a heap.
fn take(reader: &mut impl Read, buf: &mut [u8]) -> io::Result<usize>
    ensures { IfOk result (λ len. len ≤ length buf.new) }
{
    let mut len: usize = 0;
    while len < buf.len() {
        let more = reader.read(&mut buf[len..])?;
        if more == 0 {
            break;
        }
        len += more;
    }
    Ok(len)
}

// The lines of one input.
fn show(rt: &impl Print, input: &[u8]) -> Result<(), Failure> {
    let mut out = [0; OUTPUT];
    let n = session::cetomuhi_session(input, &mut out);
    if n == 0 {
        return Err(Failure::TooLong);
    }
    rt.write_all(&out[..n]).map_err(|_| Failure::Unwritten)
}

// A session, from what is read to what is written. Both buffers are fixed: there is no heap.
fn session_of(rt: &(impl Input + Print)) -> Result<(), Failure> {
    let mut input = [0; INPUT];
    let len = take(&mut rt.reader(), &mut input).map_err(|_| Failure::Unread)?;
    show(rt, &input[..len])
}

// A session, and how it went, which is also said on standard error. No contract can speak of what is read and written, so all that is
// promised is what the type says.
pub fn run(rt: &(impl Input + Print + Eprint)) -> Result<(), Failure> {
    session_of(rt).inspect_err(|failure| {
        let _ = rt.eprintln(*failure);
    })
}
