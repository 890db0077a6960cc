// The writer's step by what it needs of the record. A caller whose record stays where it is stores only
// what the step hands back.
ghost use Rattle.std.specs.Prelude.{◌≡◌};
ghost use Rattle.refusal.specs.Refusals.{paper_judged};
ghost use Rattle.effects.specs.Effects.{paper_effect};
ghost use Rattle.writer.specs.Step.{writer_access, writer_advance, work_refusal};
ghost use Rattle.writer.specs.Work.{paper_work, work_runs, step_work, station_underway, station_at, paper_stores, step_stores};

use answers::{StepResult, result_of};
use change::{change_access, change_advance, commanding_station};
use counting::steps::{steps_made, writer_counted};
use effects::memory::{WriterAccess, perform, slot_stored};
use effects::update::{Effect, Update, underway};
use put::{put_access, put_advance};
use record::idle::is_writer_idle;
use record::parts::numbered_place;
use record::{Record, Station, Writer, WriterWork};
use refusal::Refusal;
use removal::{removal_access, removal_advance};
use search::access::ReadAccess;

// What a step stores in the record, and its answer. Where it changes no count, no reach or no station,
// these are what they were.
#[derive(Clone, Copy)]
pub struct SteppedWriter {
    pub writer: Writer,
    pub reach: u32,
    // the place of a count among the counts
    pub at: usize,
    pub count: u32,
    // the last command of the station at `station_at`
    pub station: Station,
    pub answer: Result<StepResult, Refusal>,
}

// The work after a step, what changes in the record besides, and the answer.
#[derive(Clone, Copy)]
pub(crate) struct WorkStep {
    pub work: WriterWork,
    pub update: Update,
    pub answer: Result<StepResult, Refusal>,
}

// Part 1: the access that comes next.
#[tactic(auto, unfolding(crate::specs::Step::work_access))]
pub fn writer_access(panel: &Record, work: WriterWork) -> WriterAccess
    ensures { result ≡ writer_access panel.now work }
{
    match work {
        WriterWork::Idle => WriterAccess::Read(ReadAccess::Nothing),
        WriterWork::Putting(put) => put_access(put, panel.m, panel.reach),
        WriterWork::Changing(change) => change_access(change, panel.m),
        WriterWork::Removing(removal) => removal_access(removal, panel),
    }
}

// Part 3: what follows from the reach, from the word read, or from the slot stored. A writer without work
// never comes to it: its step is refused with 5.
#[tactic(auto, unfolding(crate::specs::Step::work_advance))]
pub fn writer_advance(panel: &Record, work: WriterWork, slot: u32, word: u64) -> Effect
    ensures { paper_effect result ≡ writer_advance panel.now work slot word }
{
    match work {
        WriterWork::Idle => underway(WriterWork::Idle),
        WriterWork::Putting(put) => put_advance(put, panel.k, panel.reach, slot, word),
        WriterWork::Changing(change) => change_advance(change, panel.reach, word),
        WriterWork::Removing(removal) => removal_advance(removal, panel, word),
    }
}

// Document 01's order: 1, 5.
#[tactic(auto, unfolding(refusal::specs::Judging::refuse_if, crate::specs::Step::work_refusal))]
fn judge_step(fits: bool, work: WriterWork) -> Result<(), Refusal>
    ensures { paper_judged result ≡ work_refusal fits work }
{
    if !fits {
        return Err(Refusal::Misfit);
    }
    if is_writer_idle(work) {
        return Err(Refusal::Idle);
    }
    Ok(())
}

// The three parts of a step of work that counts it.
#[tactic(auto, unfolding(crate::specs::Work::after_access, crate::specs::Work::work_runs))]
fn run_step(panel: &Record, work: WriterWork, slots: &mut [u64]) -> WorkStep
    ensures { paper_work result slots.new ≡ work_runs panel.now.m panel.now.k panel.now.reach panel.now.counts work slots.old }
{
    let access = writer_access(panel, work);
    let word = perform(slots, access);
    let effect = writer_advance(panel, work, slot_stored(access), word);
    WorkStep {
        work: effect.work,
        update: effect.update,
        answer: Ok(result_of(effect.progress, steps_made(work))),
    }
}

// A step is counted and made, unless it is refused.
#[tactic(auto, using(answers::proofs::AnswerLaws::refused_call, answers::proofs::AnswerLaws::allowed_call), unfolding(crate::specs::Work::step_work))]
fn judged_step(panel: &Record, fits: bool, slots: &mut [u64]) -> WorkStep
    ensures { paper_work result slots.new ≡ step_work fits panel.now.m panel.now.k panel.now.reach panel.now.counts panel.now.writer.work slots.old }
{
    let work = panel.writer.work;
    match judge_step(fits, work) {
        Err(refusal) => WorkStep {
            work,
            update: Update::Nothing,
            answer: Err(refusal),
        },
        Ok(()) => run_step(panel, writer_counted(work, panel.k), slots),
    }
}

// The station whose command's change is underway; 0 where none is.
fn station_underway(work: WriterWork) -> u32
    ensures { result ≡ station_underway work }
{
    match work {
        WriterWork::Changing(change) => commanding_station(change.alteration),
        _ => 0,
    }
}

// Its place among the stations.
#[tactic(auto, unfolding(crate::specs::Work::station_at))]
pub fn station_at(writer: Writer) -> usize
    ensures { result ≡ station_at writer.work }
{
    numbered_place(station_underway(writer.work), 32)
}

// The next step of the writer of a record, by whether that is in range.
#[tactic(auto, using(effects::proofs::EffectLaws::count_place_below, crate::proofs::WorkLaws::station_at_below))]
pub fn step_work(panel: &Record, fits: bool, slots: &mut [u64]) -> SteppedWriter
    ensures { paper_stores result slots.new ≡ step_stores fits panel.now slots.old }
{
    let after = judged_step(panel, fits, slots);
    let update = after.update;
    let at = update.count_place();
    let station = panel.stations[station_at(panel.writer)];
    SteppedWriter {
        writer: Writer { work: after.work },
        reach: update.reach_after(panel.reach),
        at,
        count: update.count_after(panel.m, panel.counts[at]),
        station: update.station_after(station),
        answer: after.answer,
    }
}
