// A call as seven numbers: its command, its operands in the order of their bytes, and 0 after them.
#![tactic(auto)]

mod kinds_from;
mod kinds_numbers;
mod making;

ghost use Rattle.std.specs.Prelude.{◌≡◌};
ghost use Rattle.operands.specs.Numbers.{answered, write_numbers, read_numbers};

use calls::{read_at, write_call};
pub use kinds_from::call_from;
pub use kinds_numbers::numbers_of;

// Writes the call that numbers are into a lent buffer and answers its length; 0 if they are no call or the buffer is too short,
// which is left as it was. A length and no Option: C asks for it.
pub fn write_numbers(numbers: &[u64], out: &mut [u8]) -> usize
    ensures { answered result out.new ≡ write_numbers numbers.now out.old }
{
    let call = call_from(numbers);
    let own: &[u64] = &numbers_of(call);
    if numbers != own {
        return 0;
    }
    write_call(call, out).unwrap_or(0)
}

// Fills seven lent numbers with those of the call at a place of an input and answers the bytes it used; 0 if no call is there or
// another count of numbers is lent, which are left as they were.
pub fn read_numbers(input: &[u8], at: usize, numbers: &mut [u64]) -> usize
    ensures { answered result numbers.new ≡ read_numbers input.now at numbers.old }
{
    if numbers.len() != 7 {
        return 0;
    }
    match read_at(input, at) {
        Some((call, used)) => {
            numbers.copy_from_slice(&numbers_of(call));
            used
        }
        None => 0,
    }
}
