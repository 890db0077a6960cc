// The frame reader and writer for firmware in C, as include/jizkorma.h declares them: plain numbers
// and byte buffers. Each returns 0 or the refusal's number. Crate frame_c exports them.
ghost use Rattle.std.specs.Prelude.{◌≡◌};
ghost use Rattle.frame.specs.Answers.{fields_of, reading, writing};
ghost use Rattle.frame.specs.Frames.{read_frame, write_frame};

use crate::{Fields, Reading, read, write};

#[unsafe(no_mangle)]
pub extern "C" fn jizkorma_frame_read(
    bytes: &[u8],
    map: &mut u32,
    station: &mut u32,
    number: &mut u32,
    point: &mut u32,
    action: &mut u32,
    value: &mut u32,
    refusal: &mut u32,
) -> u32
    ensures { reading result map.new station.new number.new point.new action.new value.new refusal.new ≡ read_frame bytes.now }
{
    let reading = Reading::from(read(bytes));
    *map = reading.map;
    *station = reading.fields.station;
    *number = reading.fields.number;
    *point = reading.fields.point;
    *action = reading.fields.action;
    *value = reading.fields.value;
    *refusal = reading.fields.refusal;
    reading.refused
}

#[unsafe(no_mangle)]
pub extern "C" fn jizkorma_frame_write(
    bytes: &mut [u8],
    written: &mut u32,
    map: u32,
    station: u32,
    number: u32,
    point: u32,
    action: u32,
    value: u32,
    refusal: u32,
) -> u32
    ensures { writing result written.new bytes.new ≡ write_frame map (fields_of station number point action value refusal) bytes.old }
{
    let fields = Fields {
        station,
        number,
        point,
        action,
        value,
        refusal,
    };
    match write(bytes, map, fields) {
        Ok(length) => {
            *written = length;
            0
        }
        Err(refusal) => {
            *written = 0;
            refusal.number()
        }
    }
}
