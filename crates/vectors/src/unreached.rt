// Records that no history leads to: counts, of points and of steps, stay at the ends of their ranges, and a
// step that stores does not look at what is there.
use crate::operations::{altered, finish, panel_over, put, removal, step};
use record::parts::{with_count, with_reach, with_writer};
use record::{
    Alteration, Change, ChangeStage, Masks, Place, Put, PutStage, Record, Removal, RemovalStage,
    Search, WriterWork,
};
use std::io;

pub(crate) fn run(rt: &impl Print) -> io::Result<()> {
    let mut slots = [0u64; 8];
    full_count(rt, &mut slots)?;
    empty_count(rt, &mut slots)?;
    below_the_reach(rt, &mut slots)?;
    above_the_reach(rt, &mut slots)?;
    reach_lowered(rt, &mut slots)?;
    stores(rt, &mut slots)?;
    steps_at_bounds(rt, &mut slots)
}

// Point 1 in slot 0.
fn stored(rt: &impl Print, slots: &mut [u64]) -> io::Result<Record> {
    let panel = panel_over(rt, slots, 8, 4)?;
    put(rt, panel, slots, 1, 5)
}

fn full_count(rt: &impl Print, slots: &mut [u64]) -> io::Result<()> {
    let panel = panel_over(rt, slots, 8, 4)?;
    let full = altered(rt, with_count(panel, 1, 8), slots)?;
    put(rt, full, slots, 1, 5)?;
    Ok(())
}

// The count stays 0, which the reach then is too.
fn empty_count(rt: &impl Print, slots: &mut [u64]) -> io::Result<()> {
    let panel = stored(rt, slots)?;
    let empty = altered(rt, with_count(panel, 1, 0), slots)?;
    removal(rt, empty, slots, 1)?;
    Ok(())
}

fn below_the_reach(rt: &impl Print, slots: &mut [u64]) -> io::Result<()> {
    let panel = stored(rt, slots)?;
    let empty = altered(rt, with_reach(with_count(panel, 1, 0), 2), slots)?;
    removal(rt, empty, slots, 1)?;
    Ok(())
}

// The largest index counted is looked for in 1 to k.
fn above_the_reach(rt: &impl Print, slots: &mut [u64]) -> io::Result<()> {
    let panel = stored(rt, slots)?;
    let counted = altered(rt, with_count(panel, 3, 1), slots)?;
    removal(rt, counted, slots, 1)?;
    Ok(())
}

// A put compares its index with the reach again in each step.
fn reach_lowered(rt: &impl Print, slots: &mut [u64]) -> io::Result<()> {
    let panel = stored(rt, slots)?;
    let raised = step(rt, putting(panel, PutStage::Chosen(3), 0), slots)?;
    let lowered = altered(rt, with_reach(raised, 2), slots)?;
    finish(rt, lowered, slots)?;
    Ok(())
}

fn putting(panel: Record, stage: PutStage, steps: u32) -> Record {
    let work = WriterWork::Putting(Put {
        point: 9,
        value: 6,
        stage,
        steps,
    });
    with_writer(panel, work)
}

// Position 1 of point 9 is slot 0, where point 1 is. The place found later holds no such point and value.
fn stores(rt: &impl Print, slots: &mut [u64]) -> io::Result<()> {
    let panel = stored(rt, slots)?;
    let taken = finish(rt, putting(panel, PutStage::Chosen(1), 0), slots)?;
    let place = Place { index: 4, value: 3 };
    let updated = finish(rt, putting(taken, PutStage::Found(place), 0), slots)?;
    let changed = finish(rt, changing(updated, ChangeStage::Found(place), 0), slots)?;
    finish(
        rt,
        removing(changed, 17, RemovalStage::Found(place), 0),
        slots,
    )?;
    Ok(())
}

fn changing(panel: Record, stage: ChangeStage, steps: u32) -> Record {
    let work = WriterWork::Changing(Change {
        point: 9,
        alteration: Alteration::Given(Masks { keep: 1, flip: 8 }),
        stage,
        steps,
    });
    with_writer(panel, work)
}

fn removing(panel: Record, point: u32, stage: RemovalStage, steps: u32) -> Record {
    let work = WriterWork::Removing(Removal {
        point,
        stage,
        steps,
    });
    with_writer(panel, work)
}

// Operations that count as many steps as they may take, and go on: the count stays.
fn steps_at_bounds(rt: &impl Print, slots: &mut [u64]) -> io::Result<()> {
    let panel = stored(rt, slots)?;
    let placed = finish(rt, putting(panel, PutStage::Scanning(1), 10), slots)?;
    let unread = ChangeStage::Searching(Search::Unread);
    let changed = finish(rt, changing(placed, unread, 6), slots)?;
    let unread = RemovalStage::Searching(Search::Unread);
    finish(rt, removing(changed, 9, unread, 7), slots)?;
    Ok(())
}
