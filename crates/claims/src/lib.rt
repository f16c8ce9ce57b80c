// Claims on pages: principals in a tree, each with a limit that it spends on pages. Knows nothing of reservations.
#![tactic(auto)]

ghost use Rattle.std.specs.Prelude.{◌&&◌, ◌≡◌, eqb};

pub mod destroying;
pub mod lent;
pub mod number;
pub mod operations;
pub mod sound;
pub mod tree;

// One principal. One that is not in being is all 0; principal 0 has no parent, and 0 stands there.
// No `Option`: a number whose bit 32 is clear still has a parent and a limit (`specs/Operations`: `returned`, `specs/Sound`: `is_nobody`).
#[derive(Clone, Copy, PartialEq, Eq, Default)]
pub struct Principal {
    pub being: bool,
    pub holder: u8,
    pub parent: u8,
    pub unspent: u16,
}

impl Principal {
    // It is in being and the party holds it.
    pub(crate) fn held_by(self, party: u8) -> bool
        ensures { result ≡ (self.being && eqb self.holder party) }
    {
        self.being & (self.holder == party)
    }
}
