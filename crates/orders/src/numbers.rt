// The numbers of a line: decimal, or hexadecimal behind 0x.
ghost use Rattle.std.specs.Prelude.{◌≤◌};

use crate::faults::{Argument, Fault};
use crate::words::Words;

// The next word as a number.
pub(crate) fn number(words: &mut Words, argument: Argument) -> Result<u32, Fault> {
    match words.next().ok_or(Fault::NumberMissing(argument))? {
        [b'0', b'x' | b'X', digits @ ..] => number_of(digits, 16, argument),
        digits => number_of(digits, 10, argument),
    }
}

// At least one digit of the base, and nothing else.
fn number_of(digits: &[u8], base: u32, argument: Argument) -> Result<u32, Fault>
    requires lower { 2 ≤ base }
    requires upper { base ≤ 36 }
{
    if digits.is_empty() {
        return Err(Fault::NoNumber(argument));
    }
    let mut value = 0u64;
    for byte in digits {
        let digit = char::from(*byte)
            .to_digit(base)
            .ok_or(Fault::NoNumber(argument))?;
        value = value
            .saturating_mul(u64::from(base))
            .saturating_add(u64::from(digit));
    }
    u32::try_from(value).map_err(|_| Fault::NumberTooLarge(argument))
}
