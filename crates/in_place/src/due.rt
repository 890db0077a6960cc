// The party that a turn serves, of a record behind a reference. The readers are gone over once, for their
// ranges and for who has work.
ghost use Rattle.std.specs.Prelude.{◌≡◌};
ghost use Rattle.conditions.specs.Conditions.{both};
ghost use Rattle.record_ranges.specs.Ranges.{reader_in_range, readers_in_range, in_range};
ghost use Rattle.circle.specs.Marks.{marked_with, marked_behind, due_by};

use crate::ranges::are_stations_in_range;
use circle::party_due;
use record::idle::is_reader_idle;
use record::{Reader, Record};
use record_ranges::{are_counts_in_range, are_parts_in_range, reader_joined};

// What is seen of the readers so far: whether they are in range, and the marks of who has work.
#[derive(Clone, Copy)]
pub(crate) struct Seen {
    fit: bool,
    marks: u32,
}

// With one more. Most have no work, and leave nothing to test.
#[tactic(auto, using(conditions::proofs::ConditionLaws::both_with, record_ranges::proofs::Laws::idle_in_range), unfolding(record_ranges::specs::Ranges::reader_in_range, circle::specs::Marks::marked_with))]
fn reader_seen(before: Seen, reader: Reader, m: u32, k: u32) -> Seen
    ensures { (result.fit ≡ both before.fit (reader_in_range m k reader)) × (result.marks ≡ marked_with before.marks reader) }
{
    let twice = before.marks.wrapping_add(before.marks);
    if is_reader_idle(reader.work) {
        return Seen {
            fit: before.fit,
            marks: twice,
        };
    }
    Seen {
        fit: reader_joined(before.fit, reader, m, k),
        marks: twice.wrapping_add(1),
    }
}

// All readers, two an iteration, as in `ranges`.
fn readers_seen(panel: &Record) -> Seen
    ensures { (result.fit ≡ readers_in_range panel.now.m panel.now.k panel.now.readers) × (result.marks ≡ marked_behind 0 panel.now.readers) }
{
    let m = panel.m;
    let k = panel.k;
    let mut seen = Seen {
        fit: true,
        marks: 0,
    };
    let mut i = 0;
    while i < 16 {
        seen = reader_seen(seen, panel.readers[i], m, k);
        i += 1;
        seen = reader_seen(seen, panel.readers[i], m, k);
        i += 1;
    }
    seen
}

// The party due, for a number of slots lent.
#[tactic(auto, unfolding(record_ranges::specs::Ranges::in_range))]
pub(crate) fn due_at(panel: &Record, lent: usize) -> u32
    ensures { result ≡ due_by (in_range lent panel.now) panel.now.place panel.now.writer.work (marked_behind 0 panel.now.readers) }
{
    // read once, for the two that take it
    let writer = panel.writer;
    let counts = are_counts_in_range(&panel.counts, panel.m, panel.k);
    let seen = readers_seen(panel);
    let stations = are_stations_in_range(panel);
    let fits = are_parts_in_range(
        lent,
        panel.m,
        panel.k,
        panel.reach,
        counts,
        writer,
        seen.fit,
        stations,
        panel.place,
    );
    party_due(fits, panel.place, writer, seen.marks)
}
