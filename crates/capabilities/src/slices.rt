// A lent slice that may be shorter than a place in it.
ghost use Rattle.std.specs.Prelude.{◌≡◌, get_or, set};

// What stands at a place, or what stands for it past the end.
pub fn at_or<T: Copy>(xs: &[T], at: usize, past: T) -> T
    ensures { result ≡ get_or xs.now at past }
{
    xs.get(at).copied().unwrap_or(past)
}

// Past the end nothing is written.
pub fn put<T: Copy>(xs: &mut [T], at: usize, x: T)
    ensures { xs.new ≡ set xs.old at x }
{
    if at < xs.len() {
        xs[at] = x;
    }
}
