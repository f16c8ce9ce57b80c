// Reads a call at every place of the input and past its end, and writes it back. A line a place: the place and `3` where nothing is
// read there; else the call, the bytes it used, the code of writing it and the buffer then, and the codes of reading and writing it
// cut short at every length. tests/calls_vectors.py works `stdin` and `stdout` out from the documents' lines.
#![tactic(auto)]

ghost use Rattle.std.specs.Prelude.{◌≤◌, IfOk, length};

mod kinds_shown;

use calls::Call;
use kinds_shown::Shown;
use std::io;
use std::io::Read;

// As many bytes of the input are read.
const INPUT: usize = 4096;

// What the lent buffers hold before, so that a byte that is kept shows.
const KEPT: u8 = 0xEE;

// 0, or refusal 3 where nothing was read or written. Codes and marks are numbers here, as tests/calls_vectors.py works them out.
fn code<T: Drop>(done: Option<T>) -> u8 {
    if done.is_some() { 0 } else { 3 }
}

// The code of reading `len` bytes from a place on; 9 where there are fewer.
fn cut_code(input: &[u8], at: usize, len: usize) -> u8 {
    let rest = input.get(at..).unwrap_or(&[]);
    rest.get(..len)
        .map_or(9, |part| code(calls::read_call(part)))
}

// The code of writing to the first `len` bytes of a buffer; 9 where there are fewer.
fn part_code(call: Call, out: &mut [u8], len: usize) -> u8 {
    out.get_mut(..len)
        .map_or(9, |part| code(calls::write_call(call, part)))
}

// The code of writing to a buffer of `len` bytes; 9 where a byte of it changed.
fn short_code(call: Call, len: usize) -> u8 {
    let mut buffer = [KEPT; 12];
    let code = part_code(call, &mut buffer, len);
    if buffer == [KEPT; 12] { code } else { 9 }
}

// Two codes for each length below a call's own: of reading that many bytes, and of writing to a buffer of as many.
fn show_cut(rt: &impl Print, input: &[u8], at: usize, call: Call, used: usize) -> io::Result<()> {
    for len in 0..used {
        let cut = cut_code(input, at, len);
        let short = short_code(call, len);
        print!(rt; "{cut}{short}")?;
    }
    Ok(())
}

fn show_written(rt: &impl Print, call: Call) -> io::Result<()> {
    let mut buffer = [KEPT; 12];
    let code = code(calls::write_call(call, &mut buffer));
    print!(rt; " {code} ")?;
    for byte in buffer {
        print!(rt; "{byte:02x}")?;
    }
    Ok(())
}

fn show_at(rt: &impl Print, input: &[u8], at: usize) -> io::Result<()> {
    match calls::read_at(input, at) {
        None => println!(rt; "{at} 3"),
        Some((call, used)) => {
            print!(rt; "{at} {} {used}", Shown(call))?;
            show_written(rt, call)?;
            print!(rt; " ")?;
            show_cut(rt, input, at, call, used)?;
            println!(rt;)
        }
    }
}

// Reads, in pieces as they come, until the buffer is full or the input ends, and answers how many bytes came. A loop by hand, since
// `read_to_end` needs a heap.
fn read_full(reader: &mut impl Read, buf: &mut [u8]) -> io::Result<usize>
    ensures { IfOk result (λ n. n ≤ length buf.new) }
{
    let mut len: usize = 0;
    while len < buf.len() {
        let more = reader.read(&mut buf[len..])?;
        if more == 0 {
            return Ok(len);
        }
        len += more;
    }
    Ok(len)
}

// Every place of the input, its end and one past it.
fn main(rt: HostRuntime) -> io::Result<()> {
    let mut input = [0; INPUT];
    let len = read_full(&mut rt.reader(), &mut input)?;
    for at in 0..len + 2 {
        show_at(&rt, &input[..len], at)?;
    }
    Ok(())
}
