// A station's command chosen by drawn numbers: in turn, the last one again, altered or out of turn.
use crate::drawn_calls::drawn_point;
use crate::numbers::{Draws, upper};
use command::Sent;
use record::Record;
use record::parts::station_of;

pub(crate) fn drawn_command(panel: Record, draws: Draws, points: u32) -> Sent {
    let station = drawn_station(draws.party);
    let last = station_of(panel, station);
    let point = drawn_point(draws.address, points);
    let action = drawn_action(draws.rest);
    let (number, point, action) = match upper(draws.content) % 16 {
        0..=7 => (following(last.number, 1), point, action),
        8..=10 => (last.number, last.point, last.action),
        11 => (last.number, point, last.action),
        12 => (last.number, last.point, action),
        13 => (following(last.number, 2), point, action),
        14 => (following(last.number, 16777215), point, action),
        _ => (draws.content % 16777216, point, action),
    };
    Sent {
        station,
        number,
        point,
        action,
    }
}

// Few stations, so that each sends often; at times the last, and the two numbers beside their range.
fn drawn_station(drawn: u32) -> u32 {
    match upper(drawn) % 24 {
        0 => 0,
        1 => 33,
        2 => 32,
        _ => drawn % 4 + 1,
    }
}

// Behind the three actions one more, which is refused.
fn drawn_action(drawn: u32) -> u32 {
    match upper(drawn) % 24 {
        0 => 3,
        _ => drawn % 3,
    }
}

// A number so much above another, in the three bytes that a frame has for it: 0 follows the largest, and
// 16777215 more is one less.
fn following(number: u32, more: u32) -> u32 {
    ((u64::from(number) + u64::from(more)) % 16777216) as u32
}
