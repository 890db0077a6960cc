// The writer's operations by their steps: each line shows a call's answer, and the reach, the counts and
// the slots that it leaves.
use crate::shown::{Answer, Given, State};
use answers::Outcome;
use record::Record;
use record::idle::is_writer_idle;
use std::io;
use writer::{start_change, start_put, start_removal, step_writer};

// A fresh panel, whose making empties the slots.
pub(crate) fn panel_over(rt: &impl Print, slots: &mut [u64], m: u32, k: u32) -> io::Result<Record> {
    println!(rt; "panel {m} {k}")?;
    Ok(fresh_panel::fresh(slots, m, k).panel)
}

// A record that the program altered, and not the writer.
pub(crate) fn altered(rt: &impl Print, panel: Record, slots: &[u64]) -> io::Result<Record> {
    println!(rt; "altered: {}", State { panel, slots })?;
    Ok(panel)
}

fn begun(rt: &impl Print, outcome: Outcome<()>, slots: &[u64]) -> io::Result<Record> {
    let panel = outcome.panel;
    let answer = Answer(outcome.answer.map(|()| "started"));
    println!(rt; ": {answer} {}", State { panel, slots })?;
    Ok(panel)
}

pub(crate) fn begin_put(
    rt: &impl Print,
    panel: Record,
    slots: &[u64],
    point: u32,
    value: u32,
) -> io::Result<Record> {
    print!(rt; "put {point} {value}")?;
    begun(rt, start_put(panel, slots, point, value), slots)
}

pub(crate) fn begin_change(
    rt: &impl Print,
    panel: Record,
    slots: &[u64],
    point: u32,
    keep: u32,
    flip: u32,
) -> io::Result<Record> {
    print!(rt; "change {point} {keep} {flip}")?;
    begun(rt, start_change(panel, slots, point, keep, flip), slots)
}

pub(crate) fn begin_removal(
    rt: &impl Print,
    panel: Record,
    slots: &[u64],
    point: u32,
) -> io::Result<Record> {
    print!(rt; "removal {point}")?;
    begun(rt, start_removal(panel, slots, point), slots)
}

pub(crate) fn step(rt: &impl Print, panel: Record, slots: &mut [u64]) -> io::Result<Record> {
    let stepped = step_writer(panel, slots);
    let panel = stepped.panel;
    let answer = Answer(stepped.answer.map(Given));
    println!(rt; "step: {answer} {}", State { panel, slots })?;
    Ok(panel)
}

// The steps to the end of the work underway: at most 2k + 2, and k is at most 4 here.
pub(crate) fn finish(rt: &impl Print, panel: Record, slots: &mut [u64]) -> io::Result<Record> {
    let mut now = panel;
    for _ in 0..10 {
        if is_writer_idle(now.writer.work) {
            break;
        }
        now = step(rt, now, slots)?;
    }
    Ok(now)
}

pub(crate) fn put(
    rt: &impl Print,
    panel: Record,
    slots: &mut [u64],
    point: u32,
    value: u32,
) -> io::Result<Record> {
    let underway = begin_put(rt, panel, slots, point, value)?;
    finish(rt, underway, slots)
}

pub(crate) fn removal(
    rt: &impl Print,
    panel: Record,
    slots: &mut [u64],
    point: u32,
) -> io::Result<Record> {
    let underway = begin_removal(rt, panel, slots, point)?;
    finish(rt, underway, slots)
}
