// Why a line cannot be read.
use std::fmt;

#[derive(Clone, Copy)]
pub(crate) enum Fault {
    UnknownWord,
    WordMissing,
    NumberMissing(Argument),
    NoNumber(Argument),
    NumberTooLarge(Argument),
    // a word behind the last one that the line may have
    MoreWords,
    NoHexadecimalDigit,
    OddDigits,
    FrameTooLong,
    LineTooLong,
}

// What a number in a line stands for.
#[derive(Clone, Copy)]
pub(crate) enum Argument {
    M,
    K,
    Reader,
    Point,
    Value,
    Keep,
    Flip,
}

impl fmt::Display for Fault {
    fn fmt<W: fmt::Write>(&self, f: &mut fmt::Formatter<W>) -> fmt::Result {
        match self {
            Fault::UnknownWord => f.write_str("unknown word"),
            Fault::WordMissing => f.write_str("word missing"),
            Fault::NumberMissing(argument) => write!(f, "number missing: {argument}"),
            Fault::NoNumber(argument) => write!(f, "not a number: {argument}"),
            Fault::NumberTooLarge(argument) => write!(f, "number above 4294967295: {argument}"),
            Fault::MoreWords => f.write_str("something behind the last word"),
            Fault::NoHexadecimalDigit => f.write_str("not a hexadecimal digit"),
            Fault::OddDigits => f.write_str("odd count of hexadecimal digits"),
            Fault::FrameTooLong => f.write_str("frame longer than 32 bytes"),
            Fault::LineTooLong => f.write_str("line longer than 256 bytes"),
        }
    }
}

impl fmt::Display for Argument {
    fn fmt<W: fmt::Write>(&self, f: &mut fmt::Formatter<W>) -> fmt::Result {
        f.write_str(match self {
            Argument::M => "m",
            Argument::K => "k",
            Argument::Reader => "reader",
            Argument::Point => "point",
            Argument::Value => "value",
            Argument::Keep => "keep",
            Argument::Flip => "flip",
        })
    }
}
