// The bytes of a line, put together of the pieces that are read.
use crate::faults::Fault;
use crate::reading::{Order, is_comment, order_of};

// The longest line, without its LF.
const LONGEST: usize = 256;

// The line's bytes so far; of one that is too long, its start.
#[derive(Drop)]
pub(crate) struct Line {
    bytes: [u8; LONGEST],
    length: usize,
}

impl Line {
    pub(crate) fn new() -> Self {
        Line {
            bytes: [0; LONGEST],
            length: 0,
        }
    }

    pub(crate) fn extend(&mut self, piece: &[u8]) {
        if let Some(room) = self.bytes.get_mut(self.length..) {
            let count = room.len().min(piece.len());
            room[..count].copy_from_slice(&piece[..count]);
        }
        self.length = self.length.saturating_add(piece.len());
    }

    pub(crate) fn clear(&mut self) {
        self.length = 0;
    }

    pub(crate) fn is_empty(&self) -> bool {
        self.length == 0
    }

    // What the line asks for, without the CR that may stand at its end. A comment may be of any length.
    pub(crate) fn order<'a>(&self, frame: &'a mut [u8; 32]) -> Result<Option<Order<'a>>, Fault> {
        match self.bytes.get(..self.length) {
            Some(text) => order_of(text.strip_suffix(b"\r").unwrap_or(text), frame),
            None if is_comment(&self.bytes) => Ok(None),
            None => Err(Fault::LineTooLong),
        }
    }
}
