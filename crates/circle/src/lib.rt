// The circle of seventeen parties: 0 is the writer, n + 1 reader n, and 17 stands for nobody. Which readers
// have work is told by marks, a number of sixteen binary digits, reader 15's the lowest: 1 for work.
#![tactic(auto)]

ghost use Rattle.std.specs.Prelude.{◌≡◌};
ghost use Rattle.circle.specs.Circle.{party_after};
ghost use Rattle.circle.specs.Marks.{marked_with, marked_behind, all_marked, due_by, place_after};

use record::idle::{is_reader_idle, is_writer_idle};
use record::{Reader, Writer};

// One past a party, from 16 to 0.
#[tactic(auto, unfolding(crate::specs::Circle::party_after))]
pub fn party_after(party: u32) -> u32
    ensures { result ≡ party_after party }
{
    if party < 16 { party + 1 } else { 0 }
}

// The marks with one more reader's behind them.
#[tactic(auto, unfolding(crate::specs::Marks::marked_with))]
pub fn reader_marked(marks: u32, reader: Reader) -> u32
    ensures { result ≡ marked_with marks reader }
{
    let twice = marks.wrapping_add(marks);
    if is_reader_idle(reader.work) {
        twice
    } else {
        twice.wrapping_add(1)
    }
}

// The marks of all readers.
#[tactic(auto, unfolding(crate::specs::Marks::marked_behind))]
pub fn readers_marked(readers: [Reader; 16]) -> u32
    ensures { result ≡ marked_behind 0 readers }
{
    readers
        .iter()
        .fold(0, |marks, reader| reader_marked(marks, *reader))
}

// The marks with the writer's in front.
#[tactic(auto, unfolding(crate::specs::Marks::all_marked))]
fn all_marked(writer: Writer, marks: u32) -> u32
    ensures { result ≡ all_marked writer.work marks }
{
    let readers = marks % 65536;
    if is_writer_idle(writer.work) {
        readers
    } else {
        readers + 65536
    }
}

// The first party at work from the place on, by the marks; 17 if nobody is, and 18 if the record is not in
// range.
pub fn party_due(fits: bool, place: u32, writer: Writer, marks: u32) -> u32
    ensures { result ≡ due_by fits place writer.work marks }
{
    if !fits || 16 < place {
        return 18;
    }
    let all = all_marked(writer, marks);
    let from = all & ((131072 >> place) - 1);
    if from == 0 {
        all.leading_zeros() - 15
    } else {
        from.leading_zeros() - 15
    }
}

// The place after a turn that was due to this party.
#[tactic(auto, unfolding(crate::specs::Marks::place_after))]
pub fn place_after(place: u32, due: u32) -> u32
    ensures { result ≡ place_after place due }
{
    if due < 17 { party_after(due) } else { place }
}
