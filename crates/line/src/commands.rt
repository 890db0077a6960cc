// What a whole line behind the first one asks for.
ghost use Rattle.std.specs.Prelude.{◌≡◌};
ghost use Rattle.line.specs.LineState.{command_of};

use crate::field::Field;
use crate::state::{Fields, Line};

#[derive(Clone, Copy)]
pub enum CommandLine {
    Put(PutLine),
    Lookup(u32),
    Removal(u32),
}

#[derive(Clone, Copy)]
pub struct PutLine {
    pub point: u32,
    pub value: u32,
}

impl Line {
    // None where the line cannot be read.
    #[tactic(auto, unfolding(crate::specs::Grammar::lookup_line, crate::specs::Grammar::removal_line, crate::specs::Grammar::put_line, crate::specs::LineState::is_letter_field, crate::specs::LineState::point_command, crate::specs::LineState::put_command, crate::specs::LineState::command_with, crate::specs::LineState::command_of))]
    pub fn command(self) -> Option<CommandLine>
        ensures { result ≡ command_of self }
    {
        match self.ended {
            Fields::One(Field::Letter(b'L')) => Some(CommandLine::Lookup(self.last.number()?)),
            Fields::One(Field::Letter(b'R')) => Some(CommandLine::Removal(self.last.number()?)),
            Fields::Two(Field::Letter(b'P'), point) => Some(CommandLine::Put(PutLine {
                point: point.number()?,
                value: self.last.number()?,
            })),
            _ => None,
        }
    }
}
