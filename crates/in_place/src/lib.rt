// The calls of document 01 and N1's turn, on a record that stays where the main loop keeps it. Each calls
// a function over the parts that it needs, a step with the record lent besides, and stores back what that hands
// back: a refused call stores again what was there. Only the turn has a branch. A command's start takes out the whole record.
#![tactic(auto)]

ghost use Rattle.std.specs.Prelude.{◌≡◌};
ghost use Rattle.answers.specs.Answers.{paper_start, paper_entry, paper_step, paper_turn, outcome};
ghost use Rattle.reader_step.specs.Reader.{step_reader};
ghost use Rattle.reader_starts.specs.Starts.{start_lookup, start_walk};
ghost use Rattle.writer.specs.Starts.{start_put, start_change, start_removal};
ghost use Rattle.writer.specs.Step.{step_writer};
ghost use Rattle.writer.specs.Work.{step_stored};
ghost use Rattle.command.specs.Command.{start_command};
ghost use Rattle.dispatcher.specs.Due.{writer_turn, reader_turn};
ghost use Rattle.dispatcher.specs.Turn.{take_turn};

mod due;
mod ranges;

use crate::due::due_at;
use crate::ranges::fits_at;
use answers::{Entered, Served, StepResult};
use circle::place_after;
use dispatcher::turn_answer;
use reader_starts::{lookup_started, walk_started};
use reader_step::step_work;
use record::parts::{numbered_place, reader_place};
use record::{Reader, Record};
use refusal::Refusal;
use writer::{change_started, put_started, removal_started};

// Starts a reader's lookup of a point.
#[tactic(auto, using(record::proofs::WorkLaws::reader_place_inside))]
pub fn start_lookup(
    panel: &mut Record,
    slots: &[u64],
    reader: u32,
    point: u32,
) -> Result<(), Refusal>
    ensures { outcome panel.new slots.now (paper_start result) ≡ start_lookup panel.old slots.now reader point }
{
    let fits = fits_at(panel, slots.len());
    let at = reader_place(reader);
    let found = panel.readers[at];
    let next = lookup_started(fits, reader, found, point);
    panel.readers[at] = next.reader;
    next.answer
}

// Starts a reader's walk over the slots.
#[tactic(auto, using(record::proofs::WorkLaws::reader_place_inside))]
pub fn start_walk(panel: &mut Record, slots: &[u64], reader: u32) -> Result<(), Refusal>
    ensures { outcome panel.new slots.now (paper_start result) ≡ start_walk panel.old slots.now reader }
{
    let fits = fits_at(panel, slots.len());
    let at = reader_place(reader);
    let found = panel.readers[at];
    let next = walk_started(fits, reader, found);
    panel.readers[at] = next.reader;
    next.answer
}

// The next step of a reader's lookup or walk.
#[tactic(auto, using(record::proofs::WorkLaws::reader_place_inside))]
pub fn step_reader(panel: &mut Record, slots: &[u64], reader: u32) -> Result<StepResult, Refusal>
    ensures { outcome panel.new slots.now (paper_step result) ≡ step_reader panel.old slots.now reader }
{
    let fits = fits_at(panel, slots.len());
    let at = reader_place(reader);
    let found = panel.readers[at];
    let next = step_work(panel, fits, reader, found, slots);
    panel.readers[at] = next.reader;
    next.answer
}

// Starts a put of a point and its value.
#[tactic(auto, using(writer::proofs::StartsInPlace::put_in_place), unfolding(record::specs::Parts::with_writer))]
pub fn start_put(panel: &mut Record, slots: &[u64], point: u32, value: u32) -> Result<(), Refusal>
    ensures { outcome panel.new slots.now (paper_start result) ≡ start_put panel.old slots.now point value }
{
    let fits = fits_at(panel, slots.len());
    let writer = panel.writer;
    let next = put_started(fits, writer, point, value);
    panel.writer = next.writer;
    next.answer
}

// Starts a change of a point's value to (value AND keep) XOR flip.
#[tactic(auto, using(writer::proofs::StartsInPlace::change_in_place), unfolding(record::specs::Parts::with_writer))]
pub fn start_change(
    panel: &mut Record,
    slots: &[u64],
    point: u32,
    keep: u32,
    flip: u32,
) -> Result<(), Refusal>
    ensures { outcome panel.new slots.now (paper_start result) ≡ start_change panel.old slots.now point keep flip }
{
    let fits = fits_at(panel, slots.len());
    let writer = panel.writer;
    let next = change_started(fits, writer, point, keep, flip);
    panel.writer = next.writer;
    next.answer
}

// Starts a removal of a point.
#[tactic(auto, using(writer::proofs::StartsInPlace::removal_in_place), unfolding(record::specs::Parts::with_writer))]
pub fn start_removal(panel: &mut Record, slots: &[u64], point: u32) -> Result<(), Refusal>
    ensures { outcome panel.new slots.now (paper_start result) ≡ start_removal panel.old slots.now point }
{
    let fits = fits_at(panel, slots.len());
    let writer = panel.writer;
    let next = removal_started(fits, writer, point);
    panel.writer = next.writer;
    next.answer
}

// Takes a station's command, as the bytes of its frame.
pub fn start_command(panel: &mut Record, slots: &[u64], bytes: &[u8]) -> Result<Entered, Refusal>
    ensures { outcome panel.new slots.now (paper_entry result) ≡ start_command panel.old slots.now bytes.now }
{
    let after = command::start_command(*panel, slots, bytes);
    *panel = after.panel;
    after.answer
}

// The next step of the writer's put, change or removal, of a record that has been judged.
#[tactic(auto, using(writer::proofs::WorkLaws::station_at_below, writer::proofs::WorkLaws::count_stored_below), unfolding(writer::specs::Work::step_stored, record::specs::Parts::with_reach, record::specs::Parts::with_counts, record::specs::Parts::with_stations, record::specs::Parts::with_writer))]
fn writers_step(panel: &mut Record, slots: &mut [u64], fits: bool) -> Result<StepResult, Refusal>
    ensures { outcome panel.new slots.new (paper_step result) ≡ step_stored fits panel.old slots.old }
{
    let at = writer::station_at(panel.writer);
    let next = writer::step_work(panel, fits, slots);
    panel.reach = next.reach;
    panel.counts[next.at] = next.count;
    panel.stations[at] = next.station;
    panel.writer = next.writer;
    next.answer
}

// The next step of the writer's put, change or removal.
#[tactic(auto, using(writer::proofs::StepInPlace::step_in_place))]
pub fn step_writer(panel: &mut Record, slots: &mut [u64]) -> Result<StepResult, Refusal>
    ensures { outcome panel.new slots.new (paper_step result) ≡ step_writer panel.old slots.old }
{
    let fits = fits_at(panel, slots.len());
    writers_step(panel, slots, fits)
}

// A turn that is due to the writer.
#[tactic(auto, unfolding(dispatcher::specs::Due::writer_turn, record::specs::Parts::with_place))]
fn writers_turn(panel: &mut Record, slots: &mut [u64]) -> Result<Served, Refusal>
    ensures { outcome panel.new slots.new (paper_turn result) ≡ writer_turn panel.old slots.old }
{
    panel.place = 1;
    turn_answer(0, writers_step(panel, slots, true))
}

// A turn that is due to a reader, to nobody (17), or on a record out of range (18).
#[tactic(auto, using(record::proofs::Numbered::place_below))]
fn readers_turn(panel: &mut Record, slots: &[u64], due: u32) -> Result<Served, Refusal>
    ensures { outcome panel.new slots.now (paper_turn result) ≡ reader_turn due panel.old slots.now }
{
    let at = numbered_place(due, 16);
    let found = panel.readers[at];
    let next = step_work(panel, due < 18, at as u32, found, slots);
    panel.readers[at] = next.reader;
    panel.place = place_after(panel.place, due);
    turn_answer(due, next.answer)
}

// A turn: the party due makes its step. The record is judged once.
pub fn turn(panel: &mut Record, slots: &mut [u64]) -> Result<Served, Refusal>
    ensures { outcome panel.new slots.new (paper_turn result) ≡ take_turn panel.old slots.old }
{
    // the party due is found by the marks of sixteen readers
    let readers: &[Reader] = &panel.readers;
    prove!(readers.len() == 16);
    let due = due_at(panel, slots.len());
    if due == 0 {
        writers_turn(panel, slots)
    } else {
        readers_turn(panel, slots, due)
    }
}
