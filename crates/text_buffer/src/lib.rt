// Text put together in a lent buffer. Each function takes how many bytes of the buffer are in use, and gives
// how many are then. A byte for which there is no room is left out.
#![tactic(auto)]

mod buffer;
pub mod output;

ghost use Rattle.std.specs.Prelude.{◌≡◌};
ghost use Rattle.text_buffer.specs.Filling.{filled_by, with_byte, with_bytes, decimal_of, spaced};

pub use buffer::TextBuffer;

#[tactic(auto, unfolding(crate::specs::Filling::with_byte))]
pub fn byte(filled: usize, buffer: &mut [u8], byte: u8) -> usize
    ensures { filled_by result buffer.new ≡ with_byte (filled_by filled buffer.old) byte }
{
    if filled < buffer.len() {
        buffer[filled] = byte;
        return filled + 1;
    }
    filled
}

#[tactic(auto, unfolding(crate::specs::Filling::with_bytes))]
pub fn text(filled: usize, buffer: &mut [u8], bytes: &[u8]) -> usize
    ensures { filled_by result buffer.new ≡ with_bytes (filled_by filled buffer.old) bytes.now }
{
    let mut after = filled;
    for next in bytes {
        after = byte(after, buffer, *next);
    }
    after
}

// A number in decimal digits.
pub fn decimal(filled: usize, buffer: &mut [u8], n: u64) -> usize
    ensures { filled_by result buffer.new ≡ with_bytes (filled_by filled buffer.old) (decimal_of n) }
{
    text(filled, buffer, itoa::Buffer::new().format(n).as_bytes())
}

// A space and a number.
#[tactic(auto, unfolding(crate::specs::Filling::spaced, crate::specs::Filling::with_bytes))]
pub fn number(filled: usize, buffer: &mut [u8], n: u64) -> usize
    ensures { filled_by result buffer.new ≡ with_bytes (filled_by filled buffer.old) (spaced n) }
{
    decimal(byte(filled, buffer, b' '), buffer, n)
}

pub fn line_end(filled: usize, buffer: &mut [u8]) -> usize
    ensures { filled_by result buffer.new ≡ with_byte (filled_by filled buffer.old) 10 }
{
    byte(filled, buffer, b'\n')
}
