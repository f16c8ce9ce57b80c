// A digit of capital hexadecimal.
ghost use Rattle.std.specs.Prelude.{◌≡◌, ◌<◌};
ghost use Rattle.short_histories.specs.Text.{digit};

#[tactic(auto, unfolding(crate::specs::Text::digit))]
pub(crate) fn digit(n: u8) -> u8
    requires { n < 16 }
    ensures { result ≡ digit n }
{
    if n < 10 { 48 + n } else { 55 + n }
}
