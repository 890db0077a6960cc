// A buffer on its way to a writer, as standard output. Of a writer that says which bytes it holds, as one to
// memory does, the contracts tell which of the buffer's bytes it takes.
ghost use Rattle.std.specs.Prelude.{◌≡◌, ◌+◌, ◌≤◌, length, IfOk, OnOk, OnErr};
ghost use Rattle.std.specs.Io.KnownBytes.{Appends};
ghost use Rattle.text_buffer.specs.Filling.{with_room, in_use, written_for_room};

use std::io;
use std::io::Write;

// Writes the bytes in use; none is in use then. The only error is the writer's, and the buffer stays.
pub fn flush<W: Write>(to: &mut W, filled: usize, buffer: &[u8]) -> io::Result<usize>
    ensures used { IfOk result (λ used. used ≡ 0) }
    ensures written { OnOk result (Appends (W.contents to.old) (W.contents to.new) (in_use filled buffer.now)) }
    ensures failed { OnErr result (filled ≤ length buffer.now) }
{
    if filled <= buffer.len() {
        to.write_all(&buffer[..filled])?;
    }
    Ok(0)
}

// Makes room for a line that has fewer bytes than `line`. The only error is the writer's, where there is no room.
pub fn room<W: Write>(to: &mut W, filled: usize, buffer: &[u8], line: usize) -> io::Result<usize>
    ensures used { IfOk result (λ used. used ≡ with_room filled (length buffer.now) line) }
    ensures written { OnOk result (Appends (W.contents to.old) (W.contents to.new) (written_for_room filled buffer.now line)) }
    ensures failed { OnErr result (length buffer.now ≤ filled + line) }
{
    if line < buffer.len().saturating_sub(filled) {
        return Ok(filled);
    }
    flush(to, filled, buffer)
}
