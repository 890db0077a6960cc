// Slots and records with work to do. No history leads to them, but they are in range, so no call is refused.
use reader_starts::{start_lookup, start_walk};
use record::Record;
use record::parts::fresh_record;
use slot_words::word::word_of;
use writer::start_put;

// The point that is put, changed and removed. At 16 and at 4096 slots its position 8 is none of those before.
pub(crate) const POINT: u32 = 17;

// All slots are taken, by points that nobody looks up, but the one at the last position of `POINT`.
pub(crate) fn fill(slots: &mut [u64], m: u32) {
    let free = hash::position(m, POINT, 8) as usize;
    for (at, slot) in slots.iter_mut().enumerate() {
        *slot = filling(at, free);
    }
}

fn filling(at: usize, free: usize) -> u64 {
    if at == free {
        return 0;
    }
    word_of(1000, (at % 4096) as u32)
}

pub(crate) fn idle_panel(m: u32, reach: u32) -> Record {
    let mut panel = fresh_record(m, 8);
    panel.reach = reach;
    panel
}

// All readers at work: lookups of points that are not stored, and walks.
pub(crate) fn readers_at_work(m: u32, slots: &[u64]) -> Record {
    let mut panel = idle_panel(m, 8);
    for i in 0..8u32 {
        panel = two_started(panel, slots, i);
    }
    panel
}

fn two_started(panel: Record, slots: &[u64], i: u32) -> Record {
    let reader = i % 8 * 2;
    let looking = start_lookup(panel, slots, reader, reader + 1).panel;
    start_walk(looking, slots, reader + 1).panel
}

// All readers at work, and the writer at a put that takes more steps than a lookup.
pub(crate) fn all_at_work(m: u32, slots: &[u64]) -> Record {
    start_put(readers_at_work(m, slots), slots, POINT, 7).panel
}

// Reader 5 at a walk, which takes m steps, and nobody else.
pub(crate) fn one_at_work(m: u32, slots: &[u64]) -> Record {
    start_walk(idle_panel(m, 8), slots, 5).panel
}
