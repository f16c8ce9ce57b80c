// The small numbers as a list.
ghost use Rattle.std.specs.Prelude.{◌≡◌, ◌<◌};
ghost use Rattle.cetomuhi.specs.Lent.{numbers_from};

use arrays::Numbers;

// The small numbers that are lent.
pub(crate) fn numbers_from(numbers: &[u16]) -> Numbers
    ensures value { result ≡ numbers_from numbers.now }
    ensures count_bound { (result.count < 65536) × (result.place < 65536) }
{
    match *numbers {
        [v, f, count, place, base, length] => Numbers {
            v,
            f,
            count: count as usize,
            place: place as u32,
            base,
            length,
        },
        _ => Numbers::default(),
    }
}
