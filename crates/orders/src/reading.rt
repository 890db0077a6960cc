// What a line asks for: its words, then numbers or a frame.
use crate::faults::{Argument, Fault};
use crate::hexadecimal::frame_in;
use crate::numbers::number;
use crate::words::Words;
use calls::Call;

#[derive(Clone, Copy)]
pub(crate) enum Order<'a> {
    Panel { m: u32, k: u32 },
    // a call, and the frame lent to it: empty but for a command
    Call(Call, &'a [u8]),
    Show,
}

// The first word begins with #.
pub(crate) fn is_comment(line: &[u8]) -> bool {
    Words::of(line)
        .next()
        .is_some_and(|word| word.starts_with(b"#"))
}

// None for an empty line and for a comment. A command's frame goes into the buffer.
pub(crate) fn order_of<'a>(
    line: &[u8],
    buffer: &'a mut [u8; 32],
) -> Result<Option<Order<'a>>, Fault> {
    let mut words = Words::of(line);
    match words.next() {
        None => Ok(None),
        Some([b'#', ..]) => Ok(None),
        Some(b"command") => {
            let frame = frame_in(words.rest(), buffer)?;
            Ok(Some(Order::Call(Call::StartCommand, frame)))
        }
        Some(first) => {
            let order = numbered_order(first, &mut words)?;
            if words.next().is_some() {
                return Err(Fault::MoreWords);
            }
            Ok(Some(order))
        }
    }
}

// An order of a first word, a second one behind `start` and `step`, and numbers.
fn numbered_order(first: &[u8], words: &mut Words) -> Result<Order<'static>, Fault> {
    let call = match first {
        b"panel" => {
            return Ok(Order::Panel {
                m: number(words, Argument::M)?,
                k: number(words, Argument::K)?,
            });
        }
        b"show" => return Ok(Order::Show),
        b"start" => started(words)?,
        b"step" => stepped(words)?,
        b"turn" => Call::Turn,
        b"put" => Call::StartPut {
            point: number(words, Argument::Point)?,
            value: number(words, Argument::Value)?,
        },
        b"change" => Call::StartChange {
            point: number(words, Argument::Point)?,
            keep: number(words, Argument::Keep)?,
            flip: number(words, Argument::Flip)?,
        },
        b"remove" => Call::StartRemoval {
            point: number(words, Argument::Point)?,
        },
        _ => return Err(Fault::UnknownWord),
    };
    Ok(Order::Call(call, &[]))
}

fn started(words: &mut Words) -> Result<Call, Fault> {
    match words.next().ok_or(Fault::WordMissing)? {
        b"lookup" => Ok(Call::StartLookup {
            reader: number(words, Argument::Reader)?,
            point: number(words, Argument::Point)?,
        }),
        b"walk" => Ok(Call::StartWalk {
            reader: number(words, Argument::Reader)?,
        }),
        _ => Err(Fault::UnknownWord),
    }
}

fn stepped(words: &mut Words) -> Result<Call, Fault> {
    match words.next().ok_or(Fault::WordMissing)? {
        b"reader" => Ok(Call::StepReader {
            reader: number(words, Argument::Reader)?,
        }),
        b"writer" => Ok(Call::StepWriter),
        _ => Err(Fault::UnknownWord),
    }
}
