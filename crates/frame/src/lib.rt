// Document 01's frames: a map byte, then the fields whose bits it sets. `read` and `write` are the
// frame reader and the frame writer; `c_interface` has them for firmware in C.
#![tactic(auto)]

mod big_endian;
pub mod c_interface;
mod frame_reader;
mod frame_writer;
mod judge;
mod layout;

ghost use Rattle.std.specs.Prelude.{◌≡◌};
ghost use Rattle.frame.specs.Answers.{paper_read};
ghost use Rattle.frame.specs.FieldMap.{map_of};

pub use frame_reader::read;
pub use frame_writer::write;
use refusal::Refusal;

// The six kinds of frame; the number of each is its map byte.
#[derive(Clone, Copy)]
pub enum Kind {
    Query = 0x04,
    Command = 0x0F,
    Value = 0x14,
    CommandAnswer = 0x17,
    QueryRefused = 0x24,
    CommandRefused = 0x27,
}

impl Kind {
    // The kind's map byte.
    pub fn map(self) -> u8
        ensures { result ≡ map_of self }
    {
        self as u8
    }
}

// A frame's fields. One that the map lacks reads as 0 and is ignored when writing.
#[derive(Clone, Copy, Default)]
pub struct Fields {
    pub station: u32,
    pub number: u32,
    pub point: u32,
    pub action: u32,
    pub value: u32,
    pub refusal: u32,
}

// What a byte string is read as.
#[derive(Clone, Copy)]
pub struct Frame {
    pub kind: Kind,
    pub fields: Fields,
}

// What a reader hands back, in document 01's numbers: the refusal or 0, the map and the fields. With
// a refusal all but the first are 0.
#[derive(Clone, Copy, Default)]
pub struct Reading {
    pub refused: u32,
    pub map: u32,
    pub fields: Fields,
}

impl From<Result<Frame, Refusal>> for Reading {
    ghost from_gives = { λ answer reading. reading ≡ paper_read answer };

    fn from(answer: Result<Frame, Refusal>) -> Self {
        match answer {
            Ok(frame) => Reading {
                refused: 0,
                map: u32::from(frame.kind.map()),
                fields: frame.fields,
            },
            Err(refusal) => Reading {
                refused: refusal.number(),
                ..Reading::default()
            },
        }
    }
}
