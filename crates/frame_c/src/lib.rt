// The static library for firmware in C, as include/jizkorma.h declares it: crate frame's reader and
// writer under C's names.
#![tactic(auto)]

ghost use Rattle.std.specs.Prelude.{◌≡◌};
ghost use Rattle.frame.specs.Answers.{fields_of, reading, writing};
ghost use Rattle.frame.specs.Frames.{read_frame, write_frame};

use frame::c_interface;

#[unsafe(no_mangle)]
pub extern "C" fn jizkorma_frame_read(
    bytes: &[u8],
    map: &mut u32,
    station: &mut u32,
    number: &mut u32,
    point: &mut u32,
    action: &mut u32,
    value: &mut u32,
    refusal: &mut u32,
) -> u32
    ensures { reading result map.new station.new number.new point.new action.new value.new refusal.new ≡ read_frame bytes.now }
{
    c_interface::jizkorma_frame_read(bytes, map, station, number, point, action, value, refusal)
}

#[unsafe(no_mangle)]
pub extern "C" fn jizkorma_frame_write(
    bytes: &mut [u8],
    written: &mut u32,
    map: u32,
    station: u32,
    number: u32,
    point: u32,
    action: u32,
    value: u32,
    refusal: u32,
) -> u32
    ensures { writing result written.new bytes.new ≡ write_frame map (fields_of station number point action value refusal) bytes.old }
{
    c_interface::jizkorma_frame_write(
        bytes, written, map, station, number, point, action, value, refusal,
    )
}
