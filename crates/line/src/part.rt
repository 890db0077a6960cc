// A line read out of a buffer, which may hold only a part of it.
ghost use Rattle.std.specs.Prelude.{◌≡◌};
ghost use Rattle.std.proofs.Math.Seq.{slice};
ghost use Rattle.line.specs.LineParts.{part_of};

use crate::run::digits_run;
use crate::state::Line;

// The line with all the bytes that the buffer holds of it.
#[derive(Clone, Copy)]
pub struct Part {
    pub line: Line,
    // its line end was read
    pub whole: bool,
    // the place behind what was read
    pub next: usize,
}

// The line goes on with the bytes from `from` up to its line end, or up to `to`. A field that begins
// behind a space is most often a number.
pub fn part_of(bytes: &[u8], line: Line, from: usize, to: usize) -> Part
    ensures { result ≡ part_of line from (slice from to bytes.now) }
{
    let end = to.min(bytes.len());
    let mut part = line;
    let mut i = from;
    while i < end {
        let byte = bytes[i];
        let next = i + 1;
        if byte == b'\n' {
            return Part {
                line: part,
                whole: true,
                next,
            };
        }
        part = part.more(byte);
        i = next;
        if byte == b' ' {
            let run = digits_run(bytes, next, end);
            part.last = run.field;
            i = run.next;
        }
    }
    Part {
        line: part,
        whole: false,
        next: i,
    }
}
