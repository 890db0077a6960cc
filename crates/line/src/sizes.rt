// What the whole first line says: m and k.
ghost use Rattle.std.specs.Prelude.{◌≡◌};
ghost use Rattle.line.specs.LineState.{sizes_of};

use crate::state::{Fields, Line};

#[derive(Clone, Copy)]
pub struct Sizes {
    pub m: u32,
    pub k: u32,
}

impl Line {
    // None where the line cannot be read.
    #[tactic(auto, unfolding(crate::specs::Grammar::sizes_line, crate::specs::LineState::sizes_with, crate::specs::LineState::sizes_of))]
    pub fn sizes(self) -> Option<Sizes>
        ensures { result ≡ sizes_of self }
    {
        match self.ended {
            Fields::One(m) => Some(Sizes {
                m: m.number()?,
                k: self.last.number()?,
            }),
            Fields::Nothing | Fields::Two(_, _) | Fields::TooMany => None,
        }
    }
}
