// Refusal 1 of the writer's starts and of its step: a record out of range, and a slot too few, each with
// the faults that are judged later; the work underway goes on as if nothing had been asked.
use crate::operations::{begin_change, begin_put, begin_removal, finish, panel_over, step};
use record::Record;
use record::parts::with_reach;
use std::io;

pub(crate) fn run(rt: &impl Print) -> io::Result<()> {
    let mut slots = [0u64; 8];
    let idle = panel_over(rt, &mut slots, 8, 4)?;
    step(rt, with_reach(idle, 5), &mut slots)?;
    step(rt, idle, &mut slots)?;
    let begun = begin_put(rt, idle, &slots, 9, 6)?;
    let engaged = step(rt, begun, &mut slots)?;
    starts(rt, with_reach(engaged, 5), &slots)?;
    starts(rt, engaged, &slots)?;
    finish(rt, engaged, &mut slots)?;
    let mut one_less = [0u64; 7];
    starts(rt, engaged, &one_less)?;
    step(rt, engaged, &mut one_less)?;
    Ok(())
}

fn starts(rt: &impl Print, panel: Record, slots: &[u64]) -> io::Result<()> {
    begin_put(rt, panel, slots, 0, 1)?;
    begin_change(rt, panel, slots, 0, 2, 3)?;
    begin_removal(rt, panel, slots, 0)?;
    Ok(())
}
