// Numbers of one to four bytes at a place of a frame, most significant byte first. Place 0 holds the
// map byte, so as a field's place it means that the frame lacks the field.
ghost use Rattle.std.specs.Prelude.{◌≡◌, ◌≤◌, get_or, set};
ghost use Rattle.frame.specs.Layouts.{number_at, put};

// A byte of a slice, 0 past its end.
fn byte_at(bytes: &[u8], at: usize) -> u8
    ensures { result ≡ get_or bytes.now at 0 }
{
    bytes.get(at).copied().unwrap_or(0)
}

// The number of `width` bytes at a place.
#[tactic(auto, unfolding(crate::specs::FieldMap::big_endian, crate::specs::Layouts::number_at))]
pub(crate) fn number_at(bytes: &[u8], at: u32, width: u32) -> u32
    requires { width ≤ 4 }
    ensures { result ≡ number_at bytes.now at width }
{
    if at == 0 {
        return 0;
    }
    let mut number: u32 = 0;
    for i in 0..width {
        number = number * 256 + u32::from(byte_at(bytes, at as usize + i as usize));
    }
    number
}

// Stores a byte of a slice, nothing past its end.
pub(crate) fn put_byte(out: &mut [u8], at: usize, byte: u8)
    ensures { out.new ≡ set out.old at byte }
{
    if at < out.len() {
        out[at] = byte;
    }
}

// Stores the last `width` bytes of a number at a place.
#[tactic(auto, unfolding(crate::specs::FieldMap::bytes_of, crate::specs::Layouts::put))]
pub(crate) fn put_number(out: &mut [u8], at: u32, width: u32, number: u32)
    ensures { out.new ≡ put at width number out.old }
{
    if at == 0 {
        return;
    }
    let mut rest = number;
    for i in (0..width).rev() {
        put_byte(out, at as usize + i as usize, (rest % 256) as u8);
        rest /= 256;
    }
}
