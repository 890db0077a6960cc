// Document 01's refusal table: one enum, the number and the word of each row.
#![tactic(auto)]

ghost use Rattle.std.specs.Prelude.{◌≡◌, Some, codes};
ghost use Rattle.refusal.specs.Refusals.{number_of, word_of, shown};

use std::fmt;

// A row of the table; its number is the variant's.
#[derive(Clone, Copy, Debug, PartialEq, Eq)]
pub enum Refusal {
    // m, k or a record field out of range, or slots lent other than m
    Misfit = 1,
    // point outside 1 to 2147483646
    Address,
    // reader above 15
    Reader,
    // that reader, or the writer, has work underway
    Engaged,
    // a step with no work underway
    Idle,
    // put: search found nothing, then none of positions 1 to k read empty
    NoPerch,
    // point not found, or none to display
    Unknown,
    // frame empty, or not its map's length
    Length,
    // map byte not allowed
    Map,
    // station outside 1 to 32
    Station,
    // number 0, above 16777215 or out of turn
    Turn,
    // last number, other content
    Altered,
    // action above 2, or refusal byte outside 1 to 14
    Code,
    // output buffer shorter than the frame
    Short,
}

impl Refusal {
    // The row's number in the table.
    pub fn number(self) -> u32
        ensures { result ≡ number_of self }
    {
        self as u32
    }

    // The row's word in the table.
    pub fn word(self) -> &'static str
        ensures { result.now ≡ codes (word_of self) }
    {
        match self {
            Refusal::Misfit => "misfit",
            Refusal::Address => "address",
            Refusal::Reader => "reader",
            Refusal::Engaged => "engaged",
            Refusal::Idle => "idle",
            Refusal::NoPerch => "no perch",
            Refusal::Unknown => "unknown",
            Refusal::Length => "length",
            Refusal::Map => "map",
            Refusal::Station => "station",
            Refusal::Turn => "turn",
            Refusal::Altered => "altered",
            Refusal::Code => "code",
            Refusal::Short => "short",
        }
    }
}

// A refusal shows as its number and its word.
impl fmt::Display for Refusal {
    ghost output = { λ refusal. Some (shown refusal) };

    fn fmt<W: fmt::Write>(&self, f: &mut fmt::Formatter<W>) -> fmt::Result {
        write!(f, "{} {}", self.number(), self.word())
    }
}
