// The input, a buffer at a time, and its lines.
use crate::BUFFER;
use line::{Line, part_of};
use std::io::Read;

#[derive(Drop)]
pub(crate) struct Input<R: Read + Drop> {
    from: R,
    bytes: [u8; BUFFER],
    // the next byte, and how many the buffer holds
    next: usize,
    count: usize,
    has_ended: bool,
}

impl<R: Read + Drop> Input<R> {
    pub(crate) fn new(from: R) -> Self {
        Input {
            from,
            bytes: [0; BUFFER],
            next: 0,
            count: 0,
            has_ended: false,
        }
    }

    // The next line, if there is one: "the last line needs no line end", so that what follows the last line end is a
    // line, if it is not empty. Nothing says that a line ends, so the loop has a bound, which no run reaches.
    pub(crate) fn next_line(&mut self) -> Option<Line> {
        let mut line = Line::new();
        for _ in 0..u64::MAX {
            let part = part_of(&self.bytes, line, self.next, self.count);
            line = part.line;
            self.next = part.next;
            if part.whole {
                return Some(line);
            }
            if !self.read() {
                break;
            }
        }
        (line != Line::new()).then_some(line)
    }

    // Reads on, and says whether there is more: there is not where the input ends, or fails.
    fn read(&mut self) -> bool {
        if !self.has_ended {
            self.next = 0;
            self.count = self.from.read(&mut self.bytes).unwrap_or(0);
            self.has_ended = self.count == 0;
        }
        !self.has_ended
    }
}
