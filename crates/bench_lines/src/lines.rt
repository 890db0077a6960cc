// The lines in a buffer of their own.
ghost use Rattle.std.specs.Prelude.{◌≡◌, ◌+◌, ◌≤◌, length, OnOk, OnErr};
ghost use Rattle.std.specs.Io.KnownBytes.{Appends};
ghost use Rattle.answers.specs.Answers.{paper_whole};
ghost use Rattle.text_buffer.specs.Filling.{filled_by, with_bytes, with_room, written_for_room};
ghost use Rattle.bench_lines.specs.Printed.{operation_line, unreadable_line, panel_line, refused_panel_line, last_line};

use answers::Completion;
use refusal::Refusal;
use std::io;
use std::io::Write;
use text_buffer::TextBuffer;

// The lines that are not written yet.
#[derive(Drop)]
pub struct Lines<const N: usize> {
    pub text: TextBuffer<N>,
}

impl<const N: usize> Lines<N> {
    // Makes room for a line.
    pub fn make_room<W: Write>(&mut self, to: &mut W) -> io::Result<()>
        ensures used { OnOk result (self.new.text ≡ filled_by (with_room self.old.text.used (length self.old.text.bytes) 128) self.old.text.bytes) }
        ensures written { OnOk result (Appends (W.contents to.old) (W.contents to.new) (written_for_room self.old.text.used self.old.text.bytes 128)) }
        ensures failed { OnErr result (length self.old.text.bytes ≤ self.old.text.used + 128) }
        ensures kept { OnErr result (self.new ≡ self.old) }
    {
        self.text.make_room(to, crate::LINE)
    }

    // "The first line shows m and k".
    pub fn panel(&mut self, m: u32, k: u32)
        ensures { self.new.text ≡ with_bytes self.old.text (panel_line m k) }
    {
        self.text.used = crate::panel(self.text.used, &mut self.text.bytes, m, k);
    }

    // "A first line that is missing, unreadable or refused prints "panel ! 1"".
    pub fn panel_refused(&mut self)
        ensures { self.new.text ≡ with_bytes self.old.text refused_panel_line }
    {
        self.text.used = crate::panel_refused(self.text.used, &mut self.text.bytes);
    }

    // "A line it cannot read prints "?", a space and the line's number".
    pub fn unreadable(&mut self, line: u64)
        ensures { self.new.text ≡ with_bytes self.old.text (unreadable_line line) }
    {
        self.text.used = crate::unreadable(self.text.used, &mut self.text.bytes, line);
    }

    // The line of an operation: its letter, the point, and what it came to.
    pub fn operation(&mut self, letter: u8, point: u32, answer: Result<Completion, Refusal>)
        ensures { self.new.text ≡ with_bytes self.old.text (operation_line letter point (paper_whole answer)) }
    {
        self.text.used = crate::operation(
            self.text.used,
            &mut self.text.bytes,
            letter,
            point,
            answer,
        );
    }

    // "the last, at the end of input, the reach and the number of stored points".
    pub fn finish(&mut self, reach: u32, points: u64)
        ensures { self.new.text ≡ with_bytes self.old.text (last_line reach points) }
    {
        self.text.used = crate::finish(self.text.used, &mut self.text.bytes, reach, points);
    }
}
