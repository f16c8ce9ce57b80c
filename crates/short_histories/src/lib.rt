// Every short history, put into a lent buffer as lines: document 02, 2026-10.
#![tactic(auto)]

mod commands;
mod digits;
mod walk;

ghost use Rattle.std.specs.Prelude.{◌≡◌};
ghost use Rattle.short_histories.specs.Histories.{text};

pub use walk::list;

// How long the lines are.
pub const LENGTH: usize = 5043;

// The lines in a buffer of just their length.
pub fn lines() -> [u8; LENGTH]
    ensures { result ≡ text }
{
    let mut out = [0; LENGTH];
    list(&mut out);
    out
}
