// The fields of a line so far: those that a space has ended, and the last one, which goes on.
ghost use Rattle.std.specs.Prelude.{◌≡◌};
ghost use Rattle.line.specs.LineState.{line_begin, line_more, with_ended};

use crate::field::Field;

#[derive(Clone, Copy, PartialEq, Eq)]
pub struct Line {
    pub ended: Fields,
    pub last: Field,
}

// No readable line has more than three fields, the last one included.
#[derive(Clone, Copy, PartialEq, Eq)]
pub enum Fields {
    Nothing,
    One(Field),
    Two(Field, Field),
    TooMany,
}

impl Line {
    // A line of which no byte has been given.
    #[tactic(auto, unfolding(crate::specs::LineState::line_begin))]
    pub fn new() -> Line
        ensures { result ≡ line_begin }
    {
        Line {
            ended: Fields::Nothing,
            last: Field::Empty,
        }
    }

    // The line with one byte more. Each space ends a field, so that two in a row leave an empty one.
    #[tactic(auto, unfolding(crate::specs::LineState::line_more, crate::specs::LineState::next_field, crate::specs::LineState::same_field))]
    pub fn more(self, byte: u8) -> Line
        ensures { result ≡ line_more self byte }
    {
        if byte == b' ' {
            return Line {
                ended: self.ended.with(self.last),
                last: Field::Empty,
            };
        }
        Line {
            ended: self.ended,
            last: self.last.more(byte),
        }
    }
}

impl Fields {
    // The ended fields with one more.
    #[tactic(auto, unfolding(crate::specs::LineState::with_ended))]
    fn with(self, last: Field) -> Fields
        ensures { result ≡ with_ended self last }
    {
        match self {
            Fields::Nothing => Fields::One(last),
            Fields::One(first) => Fields::Two(first, last),
            Fields::Two(_, _) | Fields::TooMany => Fields::TooMany,
        }
    }
}
