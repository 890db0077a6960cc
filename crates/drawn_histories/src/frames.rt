// A command's frame in a buffer that has one byte more, and how much of the buffer is lent.
ghost use Rattle.std.specs.Prelude.{◌≤◌};

use crate::numbers::upper;
use command::Sent;

pub(crate) fn frame_of(sent: Sent, map: u8) -> [u8; 11] {
    let [.., station] = sent.station.to_be_bytes();
    let [_, n2, n1, n0] = sent.number.to_be_bytes();
    let [p3, p2, p1, p0] = sent.point.to_be_bytes();
    let [.., action] = sent.action.to_be_bytes();
    [map, station, n2, n1, n0, p3, p2, p1, p0, action, 0]
}

// A command's map, and at times another kind's or none.
pub(crate) fn drawn_map(drawn: u32) -> u8 {
    match upper(drawn) % 32 {
        0 => 0x04,
        1 => 0x27,
        2 => 0x1F,
        _ => 0x0F,
    }
}

// A command's length, and at times any other.
pub(crate) fn drawn_length(drawn: u32) -> usize
    ensures { result ≤ 11 }
{
    let length = (drawn % 128) as usize;
    if length < 12 { length } else { 10 }
}
