// A number at a place, as it is cut to an operand's width.
ghost use Rattle.std.specs.Prelude.{◌≡◌, ◌%◌, get_or};

use capabilities::slices::at_or;

pub(crate) fn byte_at(numbers: &[u64], at: usize) -> u8
    ensures { result ≡ get_or numbers.now at 0 % 256 }
{
    (at_or(numbers, at, 0) % 256) as u8
}

pub(crate) fn two_at(numbers: &[u64], at: usize) -> u16
    ensures { result ≡ get_or numbers.now at 0 % 65536 }
{
    (at_or(numbers, at, 0) % 65536) as u16
}
