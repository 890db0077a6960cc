// Fresh panels of which the number of slots lent or m is at fault: the slots stay as they were.
use crate::shown::{Answer, Words};
use std::io;

pub(crate) fn run(rt: &impl Print) -> io::Result<()> {
    fresh(rt, &mut [7; 3], 4, 4)?;
    let mut slots = [7; 4];
    fresh(rt, &mut slots, 3, 4)?;
    fresh(rt, &mut slots, 5, 4)?;
    fresh(rt, &mut slots, 4, 1)?;
    // one slot more than a panel may have
    made(rt, &mut [7; 4097], 4097, 64)?;
    println!(rt; "")
}

fn fresh(rt: &impl Print, slots: &mut [u64], m: u32, k: u32) -> io::Result<()> {
    made(rt, slots, m, k)?;
    println!(rt; " slots{}", Words(slots))
}

fn made(rt: &impl Print, slots: &mut [u64], m: u32, k: u32) -> io::Result<()> {
    let made = fresh_panel::fresh(slots, m, k);
    let panel = made.panel;
    let answer = Answer(made.answer.map(|()| "made"));
    print!(rt;
        "fresh {m} {k}: {answer} {} {} {}",
        panel.m, panel.k, panel.reach
    )
}
