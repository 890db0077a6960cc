// Calls and answers in document 01's words.
use answers::{Completion, Ending, Given, Served, Spot, StepResult};
use calls::Call;
use refusal::Refusal;
use slot_words::word::{point_of, value_of};
use std::fmt;
use text_buffer::TextBuffer;

// Shows what it holds in those words.
#[derive(Clone, Copy)]
pub(crate) struct Said<T>(pub T);

impl fmt::Display for Said<Given> {
    fn fmt<W: fmt::Write>(&self, f: &mut fmt::Formatter<W>) -> fmt::Result {
        match self.0 {
            Given::Started => f.write_str("started"),
            Given::GivenAgain { answer, steps } => {
                write!(f, "given again: {}, steps {steps}", Said(answer))
            }
            Given::Stepped(result) => write!(f, "{}", Said(result)),
            // party 0 is the writer, n + 1 reader n
            Given::Served(Served { party: 0, result }) => write!(f, "writer: {}", Said(result)),
            Given::Served(Served { party, result }) => {
                write!(f, "reader {}: {}", party - 1, Said(result))
            }
        }
    }
}

impl fmt::Display for Said<StepResult> {
    fn fmt<W: fmt::Write>(&self, f: &mut fmt::Formatter<W>) -> fmt::Result {
        match self.0 {
            StepResult::Underway => f.write_str("underway"),
            StepResult::Ended(Completion { ending, steps }) => {
                write!(f, "{}, steps {steps}", Said(ending))
            }
            StepResult::Walked(word) => write!(f, "{}", Read(word)),
            StepResult::WalkedLast(word) => write!(f, "last: {}", Read(word)),
        }
    }
}

impl fmt::Display for Said<Ending> {
    fn fmt<W: fmt::Write>(&self, f: &mut fmt::Formatter<W>) -> fmt::Result {
        match self.0 {
            Ending::LookedUp(value) => write!(f, "value {value}"),
            Ending::Placed(Spot { slot, index }) => {
                write!(f, "placed in slot {slot}, index {index}")
            }
            Ending::Changed(value) => write!(f, "new value {value}"),
            Ending::Removed(reach) => write!(f, "reach {reach}"),
            Ending::NoPerch => write!(f, "{}", Refusal::NoPerch),
            Ending::Unknown => write!(f, "{}", Refusal::Unknown),
        }
    }
}

// A station's stored answer, in the words in which its change gave it.
impl fmt::Display for Said<Option<u32>> {
    fn fmt<W: fmt::Write>(&self, f: &mut fmt::Formatter<W>) -> fmt::Result {
        let ending = self.0.map_or(Ending::Unknown, Ending::Changed);
        write!(f, "{}", Said(ending))
    }
}

// What a walk read.
#[derive(Clone, Copy)]
struct Read(u64);

impl fmt::Display for Read {
    fn fmt<W: fmt::Write>(&self, f: &mut fmt::Formatter<W>) -> fmt::Result {
        match self.0 {
            0 => f.write_str("empty slot"),
            word => write!(f, "word of {}", Stored { word, none: "" }),
        }
    }
}

// The point and the value that a word holds; for 0, that there is none.
#[derive(Clone, Copy)]
pub(crate) struct Stored {
    pub word: u64,
    pub none: &'static str,
}

impl fmt::Display for Stored {
    fn fmt<W: fmt::Write>(&self, f: &mut fmt::Formatter<W>) -> fmt::Result {
        match self.word {
            0 => f.write_str(self.none),
            word => write!(f, "point {}, value {}", point_of(word), value_of(word)),
        }
    }
}

// A call, with the frame lent to it, in a normal form of its line.
#[derive(Clone, Copy)]
pub(crate) struct Asked<'a> {
    pub call: Call,
    pub frame: &'a [u8],
}

impl fmt::Display for Asked<'_> {
    fn fmt<W: fmt::Write>(&self, f: &mut fmt::Formatter<W>) -> fmt::Result {
        match self.call {
            Call::StartLookup { reader, point } => write!(f, "start lookup {reader} {point}"),
            Call::StartWalk { reader } => write!(f, "start walk {reader}"),
            Call::StepReader { reader } => write!(f, "step reader {reader}"),
            Call::StartPut { point, value } => write!(f, "put {point} {value}"),
            Call::StartChange { point, keep, flip } => write!(f, "change {point} {keep} {flip}"),
            Call::StartRemoval { point } => write!(f, "remove {point}"),
            Call::StartCommand => {
                f.write_str("command")?;
                // one text for 32 bytes: with `{byte:02X}` for each, the line takes 1.8 times the instructions
                for bytes in self.frame.chunks(32) {
                    let mut text = TextBuffer::<96>::new();
                    for byte in bytes {
                        text.push(b' ');
                        text.push(digit(*byte / 16));
                        text.push(digit(*byte % 16));
                    }
                    let used = text.used;
                    let shown = text.bytes.get(..used).unwrap_or(&[]);
                    f.write_str(str::from_utf8(shown).unwrap_or(""))?;
                }
                Ok(())
            }
            Call::StepWriter => f.write_str("step writer"),
            Call::Turn => f.write_str("turn"),
        }
    }
}

// The hexadecimal digit of a half of a byte.
fn digit(half: u8) -> u8 {
    match half {
        0..=9 => b'0' + half,
        10..=15 => b'A' + (half - 10),
        _ => b'?',
    }
}
