// A reader's step. It is counted, and makes one access, in three parts: which access comes next (pure), the
// access, and what follows from the word (pure).
#![tactic(auto)]

ghost use Rattle.std.specs.Prelude.{◌≡◌};
ghost use Rattle.refusal.specs.Refusals.{paper_judged};
ghost use Rattle.record.specs.Parts.{with_work};
ghost use Rattle.answers.specs.Answers.{paper_ending, paper_step, outcome};
ghost use Rattle.reader_step.specs.Reader.{reader_access, reader_left, paper_effect, paper_stepped, lookup_ending, lookup_advance, walk_advance, reader_advance, work_refusal, work_runs, step_work, step_judged, step_reader};

use answers::{Completion, Ending, Outcome, StepResult};
use counting::steps::reader_counted;
use record::idle::is_reader_idle;
use record::parts::{with_work, work_of};
use record::{Lookup, Place, Reader, ReaderWork, Record, Walk};
use record_ranges::is_in_range;
use refusal::Refusal;
use search::access::{ReadAccess, word_read};
use search::{Searched, search_access, search_advance};

// What a reader's call makes: its work after the call, and what the call gives.
#[derive(Clone, Copy)]
pub struct Effect<T> {
    pub work: ReaderWork,
    pub result: T,
}

// A reader after a call of its own, and the answer.
#[derive(Clone, Copy)]
pub struct ReaderAfter<T> {
    pub reader: Reader,
    pub answer: Result<T, Refusal>,
}

impl<T> ReaderAfter<T> {
    // By what the call has made, or its refusal, which leaves the reader as it was found.
    pub fn new(found: Reader, made: Result<Effect<T>, Refusal>) -> Self
        ensures { result ≡ reader_left found made }
    {
        match made {
            Ok(Effect { work, result }) => ReaderAfter {
                reader: Reader { work },
                answer: Ok(result),
            },
            Err(refusal) => ReaderAfter {
                reader: found,
                answer: Err(refusal),
            },
        }
    }

    // The record with the reader's work in its place, and the answer.
    pub fn put_back(self, panel: Record, reader: u32) -> Outcome<T>
        ensures work { result.panel ≡ with_work panel reader self.reader.work }
        ensures answer { result.answer ≡ self.answer }
    {
        Outcome {
            panel: with_work(panel, reader, self.reader.work),
            answer: self.answer,
        }
    }
}

// Part 1: the access that comes next.
#[tactic(auto, unfolding(crate::specs::Reader::reader_access))]
fn reader_access(work: ReaderWork, m: u32) -> ReadAccess
    ensures { result ≡ reader_access m work }
{
    match work {
        ReaderWork::Idle => ReadAccess::Nothing,
        ReaderWork::LookingUp(lookup) => search_access(lookup.search, lookup.point, m),
        ReaderWork::Walking(walk) => ReadAccess::Slot(walk.next),
    }
}

// Part 3: what follows from the reach or from the word read. A reader without work never comes to it: its
// step is refused with 5.
#[tactic(auto, unfolding(crate::specs::Reader::reader_advance))]
fn reader_advance(work: ReaderWork, m: u32, reach: u32, word: u64) -> Effect<StepResult>
    ensures { paper_effect result ≡ reader_advance m reach work word }
{
    match work {
        ReaderWork::Idle => Effect {
            work: ReaderWork::Idle,
            result: StepResult::Underway,
        },
        ReaderWork::LookingUp(lookup) => lookup_advance(lookup, reach, word),
        ReaderWork::Walking(walk) => walk_advance(walk, m, word),
    }
}

#[tactic(auto, unfolding(crate::specs::Reader::lookup_advance, crate::specs::Reader::lookup_effect))]
fn lookup_advance(lookup: Lookup, reach: u32, word: u64) -> Effect<StepResult>
    ensures { paper_effect result ≡ lookup_advance reach lookup word }
{
    match search_advance(lookup.search, lookup.point, reach, word) {
        Searched::Going(search) => Effect {
            work: ReaderWork::LookingUp(Lookup { search, ..lookup }),
            result: StepResult::Underway,
        },
        Searched::Answered(answer) => Effect {
            work: ReaderWork::Idle,
            result: StepResult::Ended(Completion {
                ending: lookup_ending(answer),
                steps: lookup.steps,
            }),
        },
    }
}

// What a lookup ends with, by its search's answer.
#[tactic(auto, unfolding(crate::specs::Reader::lookup_ending))]
pub fn lookup_ending(answer: Option<Place>) -> Ending
    ensures { paper_ending result ≡ lookup_ending answer }
{
    match answer {
        Some(place) => Ending::LookedUp(place.value),
        None => Ending::Unknown,
    }
}

#[tactic(auto, unfolding(crate::specs::Reader::walk_advance))]
fn walk_advance(walk: Walk, m: u32, word: u64) -> Effect<StepResult>
    ensures { paper_effect result ≡ walk_advance m walk word }
{
    if u64::from(walk.next) + 1 < u64::from(m) {
        Effect {
            work: ReaderWork::Walking(Walk {
                next: walk.next + 1,
            }),
            result: StepResult::Walked(word),
        }
    } else {
        Effect {
            work: ReaderWork::Idle,
            result: StepResult::WalkedLast(word),
        }
    }
}

// The three parts of the step of a reader whose work counts it.
#[tactic(auto, unfolding(crate::specs::Reader::work_runs))]
fn run_step(work: ReaderWork, m: u32, reach: u32, slots: &[u64]) -> Effect<StepResult>
    ensures { paper_effect result ≡ work_runs m reach work slots.now }
{
    let word = word_read(slots, reader_access(work, m));
    reader_advance(work, m, reach, word)
}

// Document 01's order: 1, 3, 5.
#[tactic(auto, unfolding(refusal::specs::Judging::refuse_if, crate::specs::Reader::work_refusal))]
fn judge_step(fits: bool, reader: u32, work: ReaderWork) -> Result<(), Refusal>
    ensures { paper_judged result ≡ work_refusal fits reader work }
{
    if !fits {
        return Err(Refusal::Misfit);
    }
    if 15 < reader {
        return Err(Refusal::Reader);
    }
    if is_reader_idle(work) {
        return Err(Refusal::Idle);
    }
    Ok(())
}

// The next step of a reader's lookup or walk, by whether the record is in range, and the reader as found in
// it. A step that is refused leaves the reader as it is.
#[tactic(auto, using(crate::proofs::StepWork::by_verdict), unfolding(crate::specs::Reader::step_work))]
pub fn step_work(
    panel: &Record,
    fits: bool,
    reader: u32,
    found: Reader,
    slots: &[u64],
) -> ReaderAfter<StepResult>
    ensures { paper_stepped result ≡ step_work fits reader panel.now.m panel.now.k panel.now.reach found.work slots.now }
{
    let judged = judge_step(fits, reader, found.work);
    let made = judged.map(|()| {
        let counted = reader_counted(found.work, panel.k);
        run_step(counted, panel.m, panel.reach, slots)
    });
    ReaderAfter::new(found, made)
}

// The next step of a reader's lookup or walk, of a record that has been judged.
#[tactic(auto, unfolding(crate::specs::Reader::after_step))]
pub fn step_judged(fits: bool, panel: Record, slots: &[u64], reader: u32) -> Outcome<StepResult>
    ensures { outcome result.panel slots.now (paper_step result.answer) ≡ step_judged fits panel slots.now reader }
{
    let found = Reader {
        work: work_of(panel, reader),
    };
    step_work(&panel, fits, reader, found, slots).put_back(panel, reader)
}

// The next step of a reader's lookup or walk.
#[tactic(auto, using(crate::proofs::StepWork::judged_first))]
pub fn step_reader(panel: Record, slots: &[u64], reader: u32) -> Outcome<StepResult>
    ensures { outcome result.panel slots.now (paper_step result.answer) ≡ step_reader panel slots.now reader }
{
    step_judged(is_in_range(panel, slots.len()), panel, slots, reader)
}
