// A call chosen by drawn numbers. All nine occur, and steps and turns most often, so that work comes to its end.
use crate::numbers::{Draws, joined, upper};
use calls::Call;

pub(crate) fn drawn_call(draws: Draws, points: u32) -> Call {
    let reader = drawn_reader(draws.party);
    let point = drawn_point(draws.address, points);
    match upper(draws.which) % 64 {
        0..=4 => Call::StartPut {
            point,
            value: joined(draws.content, draws.rest),
        },
        5 | 6 => Call::StartChange {
            point,
            keep: joined(draws.content, draws.rest),
            flip: joined(draws.rest, draws.party),
        },
        7..=9 => Call::StartRemoval { point },
        10..=16 => Call::StartCommand,
        17..=21 => Call::StartLookup { reader, point },
        22 | 23 => Call::StartWalk { reader },
        24..=39 => Call::StepWriter,
        40..=51 => Call::Turn,
        _ => Call::StepReader { reader },
    }
}

// Readers 0 to 2 mostly, so that their work comes to its end; at times any, and two that are refused.
fn drawn_reader(drawn: u32) -> u32 {
    match upper(drawn) % 16 {
        0 => 16,
        1 => 4294967295,
        2 | 3 => drawn % 16,
        _ => drawn % 3,
    }
}

// One of few points mostly, so that they meet; at times the largest, and the numbers beside the range.
pub(crate) fn drawn_point(drawn: u32, points: u32) -> u32 {
    match upper(drawn) % 32 {
        0 => 0,
        1 => 2147483647,
        2 => 2147483646,
        _ => near_point(drawn, points),
    }
}

// One of so many points, at most 512. They are 8 apart: in 8 slots all have the same first position.
fn near_point(drawn: u32, points: u32) -> u32 {
    if points == 0 {
        return 0;
    }
    drawn % points % 512 * 8 + 1
}
