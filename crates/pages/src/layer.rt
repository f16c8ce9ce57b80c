// The two sizes of the layer. They are asked with no branch, where `contains` has one.
ghost use Rattle.std.specs.Prelude.{◌≡◌};
ghost use Rattle.pages.specs.Layer.{in_range};

pub fn in_range(v: u16, f: u16) -> bool
    ensures { result ≡ in_range v f }
{
    ((0 < v) & (v <= 256)) & ((0 < f) & (f <= 128))
}
