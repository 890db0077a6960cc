// Lookups and walks over slots that no history leads to, and refusal 1 before the others.
use crate::shown::{Answer, Given};
use reader_starts::{start_lookup, start_walk};
use reader_step::step_reader;
use record::parts::{fresh_record, with_reach, with_work};
use record::{Lookup, ReaderWork, Record, Search};
use slot_words::word::word_of;
use std::io;

pub(crate) fn run(rt: &impl Print) -> io::Result<()> {
    let slots = stored();
    // Points are stored above the reach, and none up to it.
    lookup(rt, panel_of(2), &slots, 17)?;
    lookup(rt, panel_of(0), &slots, 1)?;
    lookup(rt, panel_of(4), &slots, 2147483646)?;
    refusals(rt, panel_of(5), &slots)?;
    refusals(rt, panel_of(3), &slots)?;
    // a slot too few
    refusals(rt, panel_of(3), &[0; 7])?;
    nobodys_points(rt)?;
    at_its_bound(rt, &slots)?;
    // A walk over a slot that is all ones.
    let slots = [u64::MAX];
    steps(
        rt,
        begin_walk(rt, fresh_record(1, 1), &slots, 7)?,
        &slots,
        7,
        2,
    )
}

// A panel of 8 slots and 4 functions with this reach, everyone idle.
fn panel_of(reach: u32) -> Record {
    with_reach(fresh_record(8, 4), reach)
}

// Points 1, 9 and 17 on their positions 1, 2 and 3.
fn stored() -> [u64; 8] {
    let mut slots = [0u64; 8];
    slots[0] = word_of(1, 5);
    slots[2] = word_of(9, 6);
    slots[3] = word_of(17, 7);
    slots
}

fn steps(rt: &impl Print, panel: Record, slots: &[u64], reader: u32, count: u32) -> io::Result<()> {
    let mut now = panel;
    for _ in 0..count {
        let stepped = step_reader(now, slots, reader);
        print!(rt; " {}", Answer(stepped.answer.map(Given)))?;
        now = stepped.panel;
    }
    println!(rt; "")
}

fn begin_lookup(
    rt: &impl Print,
    panel: Record,
    slots: &[u64],
    reader: u32,
    point: u32,
) -> io::Result<Record> {
    let begun = start_lookup(panel, slots, reader, point);
    let answer = Answer(begun.answer.map(|()| "started"));
    print!(rt; "lookup {reader} {point}: {answer}")?;
    Ok(begun.panel)
}

fn begin_walk(rt: &impl Print, panel: Record, slots: &[u64], reader: u32) -> io::Result<Record> {
    let begun = start_walk(panel, slots, reader);
    let answer = Answer(begun.answer.map(|()| "started"));
    print!(rt; "walk {reader}: {answer}")?;
    Ok(begun.panel)
}

// A lookup, with steps behind its end.
fn lookup(rt: &impl Print, panel: Record, slots: &[u64], point: u32) -> io::Result<()> {
    steps(rt, begin_lookup(rt, panel, slots, 0, point)?, slots, 0, 6)
}

// Words whose upper half is no valid point match no point.
fn nobodys_points(rt: &impl Print) -> io::Result<()> {
    let mut slots = [0u64; 8];
    slots[0] = word_of(0, 5);
    slots[4] = word_of(2147483647, 5);
    slots[2] = word_of(4294967295, 5);
    lookup(rt, panel_of(4), &slots, 1)?;
    lookup(rt, panel_of(4), &slots, 9)
}

// A lookup that counts as many steps as it may take before its first: the count stays.
fn at_its_bound(rt: &impl Print, slots: &[u64]) -> io::Result<()> {
    let work = ReaderWork::LookingUp(Lookup {
        point: 17,
        search: Search::Unread,
        steps: 5,
    });
    print!(rt; "lookup at its bound:")?;
    steps(rt, with_work(panel_of(3), 0, work), slots, 0, 6)
}

// Each call with the faults that are judged behind refusal 1.
fn refusals(rt: &impl Print, panel: Record, slots: &[u64]) -> io::Result<()> {
    begin_lookup(rt, panel, slots, 16, 0)?;
    println!(rt; "")?;
    begin_walk(rt, panel, slots, 4294967295)?;
    println!(rt; "")?;
    print!(rt; "step:")?;
    steps(rt, panel, slots, 16, 1)
}
