// The disabled total and the one-line display.
use crate::shown::Answer;
use disabled_points::{disabled_point, disabled_total};
use record::parts::fresh_record;
use slot_words::word::word_of;
use std::io;

pub(crate) fn run(rt: &impl Print) -> io::Result<()> {
    let mut slots = [0u64; 8];
    disabled(rt, 4, &slots)?;
    slots[0] = word_of(0, 1);
    slots[1] = word_of(2147483647, 1);
    slots[2] = word_of(20, 4294967294);
    disabled(rt, 4, &slots)?;
    slots[3] = word_of(2147483646, 1);
    disabled(rt, 4, &slots)?;
    slots[4] = word_of(9, 9);
    slots[5] = word_of(7, 4294967295);
    slots[7] = word_of(8, 3);
    disabled(rt, 4, &slots)?;
    disabled(rt, 0, &slots)?;
    disabled(rt, 4, &slots[..7])
}

// With the record of 8 slots and k functions.
fn disabled(rt: &impl Print, k: u32, slots: &[u64]) -> io::Result<()> {
    let panel = fresh_record(8, k);
    let total = Answer(disabled_total(panel, slots));
    let point = Answer(disabled_point(panel, slots));
    println!(rt; "disabled: {total} {point}")
}
