// A record with each of its fields in turn out of range, and at the end of its range: a table's rows.
use crate::shown::Answer;
use reader_starts::start_walk;
use record::parts::{
    fresh_record, with_count, with_place, with_reach, with_station, with_work, with_writer,
};
use record::{
    Alteration, Change, ChangeStage, Command, Lookup, Masks, Place, Probe, Put, PutStage,
    ReaderWork, Record, Removal, RemovalStage, Search, Station, Walk, WriterWork,
};
use std::io;

// A fresh record of 8 slots and 4 functions with one field altered, by numbers that the field has then.
// What is not named is in range.
#[derive(Clone, Copy)]
enum Altered {
    M(u32),
    K(u32),
    Reach(u32),
    // the place in the circle
    Circle(u32),
    // index and count
    Count(u32, u32),
    // reader and point of a lookup that has not read the reach
    Lookup(u32, u32),
    // the reach that a lookup remembers, and its next index
    Probe(u32, u32),
    // the steps that a lookup has made
    LookupSteps(u32),
    Walk(u32),
    // point and index of a put in its second search
    Put(u32, u32),
    PutProbe(u32, u32),
    PutFound(u32),
    PutChosen(u32),
    PutSteps(u32),
    // point of a change that has not read the reach
    Change(u32),
    ChangeProbe(u32, u32),
    ChangeFound(u32),
    // station, number and action of a command underway
    Command(u32, u32, u32),
    ChangeSteps(u32),
    // point of a removal about to lower the reach
    Removal(u32),
    RemovalProbe(u32, u32),
    RemovalFound(u32),
    RemovalSteps(u32),
    // a station with the number, point and action of its last command
    Station(u32, u32, u32, u32),
}

const CASES: [Altered; 73] = [
    Altered::M(8),
    Altered::M(0),
    Altered::M(7),
    Altered::M(9),
    Altered::M(4294967295),
    Altered::K(0),
    Altered::K(1),
    Altered::K(64),
    Altered::K(65),
    Altered::Reach(4),
    Altered::Reach(5),
    Altered::Circle(16),
    Altered::Circle(17),
    Altered::Count(1, 8),
    Altered::Count(1, 9),
    Altered::Count(4, 9),
    Altered::Count(5, 9),
    Altered::Count(64, 4294967295),
    Altered::Lookup(0, 0),
    Altered::Lookup(0, 1),
    Altered::Lookup(14, 2147483646),
    Altered::Lookup(14, 2147483647),
    Altered::Probe(4, 4),
    Altered::Probe(5, 1),
    Altered::Probe(0, 0),
    Altered::Probe(2, 0),
    Altered::Probe(2, 3),
    Altered::LookupSteps(5),
    Altered::LookupSteps(6),
    Altered::Walk(7),
    Altered::Walk(8),
    Altered::Put(0, 1),
    Altered::Put(2147483646, 4),
    Altered::Put(2147483647, 4),
    Altered::Put(1, 0),
    Altered::Put(1, 5),
    Altered::PutProbe(4, 4),
    Altered::PutProbe(5, 1),
    Altered::PutFound(0),
    Altered::PutFound(4),
    Altered::PutFound(5),
    Altered::PutChosen(0),
    Altered::PutChosen(4),
    Altered::PutChosen(5),
    Altered::PutSteps(10),
    Altered::PutSteps(11),
    Altered::Change(0),
    Altered::Change(1),
    Altered::ChangeProbe(2, 3),
    Altered::ChangeFound(4),
    Altered::ChangeFound(5),
    Altered::Command(32, 16777215, 2),
    Altered::Command(0, 1, 0),
    Altered::Command(33, 1, 0),
    Altered::Command(1, 0, 0),
    Altered::Command(1, 16777216, 0),
    Altered::Command(1, 1, 3),
    Altered::ChangeSteps(6),
    Altered::ChangeSteps(7),
    Altered::Removal(0),
    Altered::Removal(1),
    Altered::RemovalProbe(0, 1),
    Altered::RemovalFound(0),
    Altered::RemovalFound(1),
    Altered::RemovalFound(5),
    Altered::RemovalSteps(7),
    Altered::RemovalSteps(8),
    Altered::Station(1, 16777215, 1, 2),
    Altered::Station(1, 16777216, 1, 2),
    Altered::Station(32, 1, 0, 2),
    Altered::Station(32, 1, 2147483647, 2),
    Altered::Station(32, 1, 1, 3),
    Altered::Station(32, 0, 0, 3),
];

// What the start of reader 15's walk is answered, with 8 slots.
pub(crate) fn run(rt: &impl Print) -> io::Result<()> {
    for (row, altered) in CASES.iter().enumerate() {
        let begun = start_walk(record_with(*altered), &[0; 8], 15);
        let answer = Answer(begun.answer.map(|()| "started"));
        println!(rt; "range {row}: {answer}")?;
    }
    Ok(())
}

fn record_with(altered: Altered) -> Record {
    let panel = fresh_record(8, 4);
    match altered {
        Altered::M(m) => fresh_record(m, 4),
        Altered::K(k) => fresh_record(8, k),
        Altered::Reach(reach) => with_reach(panel, reach),
        Altered::Circle(place) => with_place(panel, place),
        Altered::Count(index, count) => with_count(panel, index, count),
        Altered::Lookup(reader, point) => {
            with_work(panel, reader, lookup(point, Search::Unread, 0))
        }
        Altered::Probe(reach, next) => with_work(panel, 0, lookup(1, probing(reach, next), 0)),
        Altered::LookupSteps(steps) => with_work(panel, 0, lookup(1, Search::Unread, steps)),
        Altered::Walk(next) => with_work(panel, 14, ReaderWork::Walking(Walk { next })),
        Altered::Station(station, count, point, action) => {
            with_station(panel, station, last(count, point, action))
        }
        _ => with_writer(panel, writer_work(altered)),
    }
}

fn probing(reach: u32, next: u32) -> Search {
    Search::Probing(Probe { reach, next })
}

fn lookup(point: u32, search: Search, steps: u32) -> ReaderWork {
    ReaderWork::LookingUp(Lookup {
        point,
        search,
        steps,
    })
}

fn last(count: u32, point: u32, action: u32) -> Station {
    Station {
        number: count,
        point,
        action,
        answer: None,
    }
}

fn writer_work(altered: Altered) -> WriterWork {
    match altered {
        Altered::Put(point, index) => put(point, PutStage::Scanning(index), 0),
        Altered::PutProbe(reach, next) => put(1, PutStage::Searching(probing(reach, next)), 0),
        Altered::PutFound(index) => put(1, PutStage::Found(place(index)), 0),
        Altered::PutChosen(index) => put(1, PutStage::Chosen(index), 0),
        Altered::PutSteps(steps) => put(1, PutStage::Scanning(1), steps),
        Altered::Change(point) => change(point, masks(), unread(), 0),
        Altered::ChangeProbe(reach, next) => {
            change(1, masks(), ChangeStage::Searching(probing(reach, next)), 0)
        }
        Altered::ChangeFound(index) => change(1, masks(), ChangeStage::Found(place(index)), 0),
        Altered::Command(station, count, action) => {
            change(1, command(station, count, action), unread(), 0)
        }
        Altered::ChangeSteps(steps) => change(1, masks(), unread(), steps),
        Altered::Removal(point) => removal(point, RemovalStage::Lowering, 0),
        Altered::RemovalProbe(reach, next) => {
            removal(1, RemovalStage::Searching(probing(reach, next)), 0)
        }
        Altered::RemovalFound(index) => removal(1, RemovalStage::Found(place(index)), 0),
        Altered::RemovalSteps(steps) => removal(1, RemovalStage::Lowering, steps),
        _ => WriterWork::Idle,
    }
}

fn put(point: u32, stage: PutStage, steps: u32) -> WriterWork {
    WriterWork::Putting(Put {
        point,
        value: 4294967295,
        stage,
        steps,
    })
}

fn place(index: u32) -> Place {
    Place {
        index,
        value: 4294967295,
    }
}

fn masks() -> Alteration {
    Alteration::Given(Masks {
        keep: 4294967295,
        flip: 4294967295,
    })
}

fn command(station: u32, count: u32, action: u32) -> Alteration {
    Alteration::Commanded(Command {
        station,
        number: count,
        action,
    })
}

// A change that has not read the reach.
fn unread() -> ChangeStage {
    ChangeStage::Searching(Search::Unread)
}

fn change(point: u32, alteration: Alteration, stage: ChangeStage, steps: u32) -> WriterWork {
    WriterWork::Changing(Change {
        point,
        alteration,
        stage,
        steps,
    })
}

fn removal(point: u32, stage: RemovalStage, steps: u32) -> WriterWork {
    WriterWork::Removing(Removal {
        point,
        stage,
        steps,
    })
}
