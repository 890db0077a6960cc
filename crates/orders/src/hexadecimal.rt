// A command's frame in hexadecimal digits.
use crate::faults::Fault;
use crate::words::is_blank;

// The frame in the buffer, which holds zeros. Blanks between the digits mean nothing.
pub(crate) fn frame_in<'a>(digits: &[u8], buffer: &'a mut [u8; 32]) -> Result<&'a [u8], Fault> {
    let mut count = 0usize;
    for byte in digits.iter().copied().filter(|byte| !is_blank(*byte)) {
        let digit = char::from(byte)
            .to_digit(16)
            .ok_or(Fault::NoHexadecimalDigit)?;
        // a byte's upper half comes first
        if let Some(place) = buffer.get_mut(count / 2) {
            *place = *place << 4 | digit as u8;
        }
        count = count.saturating_add(1);
    }
    if 64 < count {
        return Err(Fault::FrameTooLong);
    }
    if count % 2 == 1 {
        return Err(Fault::OddDigits);
    }
    Ok(&buffer[..count / 2])
}
