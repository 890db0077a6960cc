// Records made, and a part of one read or replaced.
ghost use Rattle.std.specs.Prelude.{◌≡◌};
ghost use Rattle.record.specs.Parts.{unheard_station, fresh_record, work_of, with_work, reader_place, with_writer, with_reach, with_place, numbered, with_numbered, numbered_place, count_in, count_of, with_count, station_of, with_station};

use crate::{Reader, ReaderWork, Record, Station, Writer, WriterWork};

// A station that sent no command yet.
fn unheard() -> Station
    ensures { result ≡ unheard_station }
{
    Station {
        number: 0,
        point: 0,
        action: 0,
        answer: Some(0),
    }
}

// The record of m slots and k functions with which a panel begins: nothing stored, everyone idle.
#[tactic(auto, unfolding(crate::specs::Parts::fresh_record))]
pub fn fresh_record(m: u32, k: u32) -> Record
    ensures { result ≡ fresh_record m k }
{
    let idle = Reader {
        work: ReaderWork::Idle,
    };
    Record {
        m,
        k,
        reach: 0,
        counts: [0; 64],
        writer: Writer {
            work: WriterWork::Idle,
        },
        readers: [idle; 16],
        stations: [unheard(); 32],
        place: 0,
    }
}

// A reader's work; above 15 there is none.
#[tactic(auto, unfolding(crate::specs::Parts::work_of))]
pub fn work_of(panel: Record, reader: u32) -> ReaderWork
    ensures { result ≡ work_of panel reader }
{
    panel
        .readers
        .get(reader as usize)
        .map_or(ReaderWork::Idle, |found| found.work)
}

// The record with a reader's work replaced; above 15 the record as it is.
#[tactic(auto, unfolding(crate::specs::Parts::with_readers, crate::specs::Parts::with_work))]
pub fn with_work(panel: Record, reader: u32, work: ReaderWork) -> Record
    ensures { result ≡ with_work panel reader work }
{
    let mut next = panel;
    if reader <= 15 {
        next.readers[reader as usize] = Reader { work };
    }
    next
}

// The place of a reader's work among the readers; 0 where there is no such reader.
#[tactic(auto, unfolding(crate::specs::Parts::reader_place))]
pub fn reader_place(reader: u32) -> usize
    ensures { result ≡ reader_place reader }
{
    if 15 < reader { 0 } else { reader as usize }
}

// The record with the writer's work replaced.
#[tactic(auto, unfolding(crate::specs::Parts::with_writer))]
pub fn with_writer(panel: Record, work: WriterWork) -> Record
    ensures { result ≡ with_writer panel work }
{
    Record {
        writer: Writer { work },
        ..panel
    }
}

// The record with the reach replaced.
#[tactic(auto, unfolding(crate::specs::Parts::with_reach))]
pub fn with_reach(panel: Record, reach: u32) -> Record
    ensures { result ≡ with_reach panel reach }
{
    Record { reach, ..panel }
}

// The record with the place in the circle replaced.
#[tactic(auto, unfolding(crate::specs::Parts::with_place))]
pub fn with_place(panel: Record, place: u32) -> Record
    ensures { result ≡ with_place panel place }
{
    Record { place, ..panel }
}

// How many stored points use an index, 1 to 64, by the counts; of another index none do.
pub fn count_in(counts: &[u32; 64], index: u32) -> u32
    ensures { result ≡ count_in counts.now index }
{
    numbered(counts, index, 0)
}

// The same by the record.
#[tactic(auto, unfolding(crate::specs::Parts::count_of))]
pub fn count_of(panel: Record, index: u32) -> u32
    ensures { result ≡ count_of panel index }
{
    count_in(&panel.counts, index)
}

// The record with an index's count replaced; with an index outside 1 to 64 the record as it is.
#[tactic(auto, unfolding(crate::specs::Parts::with_count, crate::specs::Parts::with_counts))]
pub fn with_count(panel: Record, index: u32, count: u32) -> Record
    ensures { result ≡ with_count panel index count }
{
    let mut next = panel;
    replace_numbered(&mut next.counts, index, count);
    next
}

// The last command of a station, 1 to 32; another station sent none.
#[tactic(auto, unfolding(crate::specs::Parts::station_of))]
pub fn station_of(panel: Record, station: u32) -> Station
    ensures { result ≡ station_of panel station }
{
    numbered(&panel.stations, station, unheard())
}

// The record with a station's last command replaced; with a station outside 1 to 32 the record as it is.
#[tactic(auto, unfolding(crate::specs::Parts::with_station, crate::specs::Parts::with_stations))]
pub fn with_station(panel: Record, station: u32, last: Station) -> Record
    ensures { result ≡ with_station panel station last }
{
    let mut next = panel;
    replace_numbered(&mut next.stations, station, last);
    next
}

// The element of that number, counted from 1; of another number what stands for none.
#[tactic(auto, using(crate::proofs::Numbered::numbered_laws))]
fn numbered<T: Copy>(list: &[T], number: u32, none: T) -> T
    ensures { result ≡ numbered list.now number none }
{
    match number.checked_sub(1) {
        Some(i) => list.get(i as usize).copied().unwrap_or(none),
        None => none,
    }
}

// Puts an element in the place of the one of that number; with another number the list stays as it is.
#[tactic(auto, using(crate::proofs::Numbered::replaced_laws))]
fn replace_numbered<T: Copy>(list: &mut [T], number: u32, new: T)
    ensures { list.new ≡ with_numbered list.old number new }
{
    if let Some(i) = number.checked_sub(1)
        && (i as usize) < list.len()
    {
        list[i as usize] = new;
    }
}

// The place of the element of that number, counted from 1 to last; 0 where there is none.
#[tactic(auto, using(crate::proofs::Numbered::place_laws))]
pub fn numbered_place(number: u32, last: u32) -> usize
    ensures { result ≡ numbered_place last number }
{
    if number == 0 || last < number {
        return 0;
    }
    (number - 1) as usize
}
