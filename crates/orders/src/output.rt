// The output, written a part at a time, of whole lines. No memory is asked for, so that the program can't run out
// of it.
ghost use Rattle.std.specs.Prelude.{◌≡◌, take, IfOk, OnOk};
ghost use Rattle.std.specs.Io.{WritesAtMost};
ghost use Rattle.std.specs.Io.KnownBytes.{Appends};
ghost use Rattle.text_buffer.specs.Filling.{in_use, given_so_far};

use std::io;
use std::io::Write;
use text_buffer::TextBuffer;

// How much is written at a time.
const PART: usize = 65536;

// A line has fewer bytes.
const LINE: usize = 256;

#[derive(Drop)]
pub(crate) struct Output<W> {
    to: W,
    // what is still to be written
    text: TextBuffer<PART>,
}

impl<W: Write + Drop> Output<W> {
    pub(crate) fn new(to: W) -> Self {
        Output {
            to,
            text: TextBuffer::new(),
        }
    }

    // What the text ends with is a whole line, or there is none.
    fn is_at_line_start(&self) -> bool {
        let used = self.text.used;
        match self.text.bytes.get(..used) {
            Some([.., last]) => *last == b'\n',
            _ => true,
        }
    }
}

impl<W: Write + Drop> Write for Output<W> {
    // Takes what has room. Room for a whole line is made where one begins, so that what is written ends with a line;
    // a line of more bytes would be cut where the buffer is full.
    fn write(&mut self, bytes: &[u8]) -> io::Result<usize>
        ensures bound { WritesAtMost result bytes.now }
        ensures given { IfOk result (λ count. Appends (given_so_far (W.contents self.old.to) self.old.text.used self.old.text.bytes) (given_so_far (W.contents self.new.to) self.new.text.used self.new.text.bytes) (take count bytes.now)) }
    {
        let line = if self.is_at_line_start() { LINE } else { 0 };
        let text = &mut self.text;
        text.make_room(&mut self.to, line)?;
        let used = text.used;
        let all: &[u8] = &text.bytes;
        let room = all.len().saturating_sub(used);
        let count = bytes.len().min(room);
        text.push_bytes(&bytes[..count]);
        Ok(count)
    }

    // Writes what is still to be written.
    fn flush(&mut self) -> io::Result<()>
        ensures written { OnOk result (Appends (W.contents self.old.to) (W.contents self.new.to) (in_use self.old.text.used self.old.text.bytes)) }
        ensures used { OnOk result (self.new.text.used ≡ 0) }
    {
        self.text.flush(&mut self.to)
    }
}
