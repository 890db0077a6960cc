// A buffer of its own, and how much of it is in use.
ghost use Rattle.std.specs.Prelude.{◌≡◌, ◌+◌, ◌≤◌, length, OnOk, OnErr};
ghost use Rattle.std.specs.Io.KnownBytes.{Appends};
ghost use Rattle.text_buffer.specs.Filling.{filled_by, with_byte, with_bytes, decimal_of, spaced, with_room, in_use, written_for_room};

use crate::output;
use std::io;
use std::io::Write;
use std::marker::Model;

// A buffer, of which the first bytes are in use. One that is said to have more in use than it holds has no room.
#[derive(Drop)]
pub struct TextBuffer<const N: usize> {
    pub bytes: [u8; N],
    pub used: usize,
}

// Clauses see how many bytes are in use, and all the bytes.
impl<const N: usize> Model for TextBuffer<N> {
    ghost use Rattle.text_buffer.specs.Filling.{Filled, filled_by};

    ghost Value = { Filled };

    ghost view = { λ text. filled_by text.used text.bytes };
}

impl<const N: usize> TextBuffer<N> {
    // A buffer of which no byte is in use.
    pub fn new() -> Self
        ensures unused { result.used ≡ 0 }
        ensures size { length result.bytes ≡ N }
    {
        TextBuffer {
            bytes: [0; N],
            used: 0,
        }
    }

    pub fn push(&mut self, byte: u8)
        ensures { self.new ≡ with_byte self.old byte }
    {
        self.used = crate::byte(self.used, &mut self.bytes, byte);
    }

    pub fn push_bytes(&mut self, bytes: &[u8])
        ensures { self.new ≡ with_bytes self.old bytes.now }
    {
        self.used = crate::text(self.used, &mut self.bytes, bytes);
    }

    // A number in decimal digits.
    pub fn decimal(&mut self, n: u64)
        ensures { self.new ≡ with_bytes self.old (decimal_of n) }
    {
        self.used = crate::decimal(self.used, &mut self.bytes, n);
    }

    // A space and a number.
    pub fn number(&mut self, n: u64)
        ensures { self.new ≡ with_bytes self.old (spaced n) }
    {
        self.used = crate::number(self.used, &mut self.bytes, n);
    }

    pub fn line_end(&mut self)
        ensures { self.new ≡ with_byte self.old 10 }
    {
        self.used = crate::line_end(self.used, &mut self.bytes);
    }

    // Writes the bytes in use; none is in use then. The only error is the writer's, and the buffer stays.
    pub fn flush<W: Write>(&mut self, to: &mut W) -> io::Result<()>
        ensures used { OnOk result (self.new ≡ filled_by 0 self.old.bytes) }
        ensures written { OnOk result (Appends (W.contents to.old) (W.contents to.new) (in_use self.old.used self.old.bytes)) }
        ensures failed { OnErr result (self.old.used ≤ length self.old.bytes) }
        ensures kept { OnErr result (self.new ≡ self.old) }
    {
        self.used = output::flush(to, self.used, &self.bytes)?;
        Ok(())
    }

    // Makes room for a line that has fewer bytes than `line`. The only error is the writer's, where there is no room,
    // and the buffer stays.
    pub fn make_room<W: Write>(&mut self, to: &mut W, line: usize) -> io::Result<()>
        ensures used { OnOk result (self.new ≡ filled_by (with_room self.old.used (length self.old.bytes) line) self.old.bytes) }
        ensures written { OnOk result (Appends (W.contents to.old) (W.contents to.new) (written_for_room self.old.used self.old.bytes line)) }
        ensures failed { OnErr result (length self.old.bytes ≤ self.old.used + line) }
        ensures kept { OnErr result (self.new ≡ self.old) }
    {
        self.used = output::room(to, self.used, &self.bytes, line)?;
        Ok(())
    }
}
