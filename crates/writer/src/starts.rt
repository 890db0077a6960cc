// The calls that start one of the writer's operations. A start takes no step.
ghost use Rattle.std.specs.Prelude.{◌≡◌};
ghost use Rattle.refusal.specs.Refusals.{paper_judged};
ghost use Rattle.answers.specs.Answers.{paper_start, outcome};
ghost use Rattle.writer.specs.Starts.{work_start_refusal, start_refusal, put_begun, change_begun, removal_begun, start_put, start_change, start_removal, start_writer, paper_started, start_work};

use answers::Outcome;
use record::idle::is_writer_idle;
use record::{
    Alteration, Change, ChangeStage, Masks, Put, PutStage, Record, Removal, RemovalStage, Search,
    Writer, WriterWork,
};
use record_ranges::is_in_range;
use refusal::Refusal;
use slot_words::points::is_valid_point;

// The writer after a start, and its answer.
#[derive(Clone, Copy)]
pub struct StartedWriter {
    pub writer: Writer,
    pub answer: Result<(), Refusal>,
}

// Document 01's order: 1, 2, 4.
#[tactic(auto, unfolding(refusal::specs::Judging::refuse_if, crate::specs::Starts::work_start_refusal))]
fn judge(fits: bool, point: u32, work: WriterWork) -> Result<(), Refusal>
    ensures { paper_judged result ≡ work_start_refusal fits point work }
{
    if !fits {
        return Err(Refusal::Misfit);
    }
    if !is_valid_point(point) {
        return Err(Refusal::Address);
    }
    if !is_writer_idle(work) {
        return Err(Refusal::Engaged);
    }
    Ok(())
}

// The same by the record.
#[tactic(auto, unfolding(crate::specs::Starts::start_refusal))]
pub fn judge_start(panel: Record, lent: usize, point: u32) -> Result<(), Refusal>
    ensures { paper_judged result ≡ start_refusal lent panel point }
{
    judge(is_in_range(panel, lent), point, panel.writer.work)
}

// The writer is given its work on a point, unless the call is refused.
#[tactic(auto, using(answers::proofs::AnswerLaws::refused_call, answers::proofs::AnswerLaws::allowed_call), unfolding(crate::specs::Starts::start_work))]
fn started(fits: bool, writer: Writer, point: u32, work: WriterWork) -> StartedWriter
    ensures { paper_started result ≡ start_work fits writer.work point work }
{
    match judge(fits, point, writer.work) {
        Err(refusal) => StartedWriter {
            writer,
            answer: Err(refusal),
        },
        Ok(()) => StartedWriter {
            writer: Writer { work },
            answer: Ok(()),
        },
    }
}

// A put that begins.
fn put_begun(point: u32, value: u32) -> WriterWork
    ensures { result ≡ put_begun point value }
{
    WriterWork::Putting(Put {
        point,
        value,
        stage: PutStage::Searching(Search::Unread),
        steps: 0,
    })
}

// A change that begins.
fn change_begun(point: u32, keep: u32, flip: u32) -> WriterWork
    ensures { result ≡ change_begun point keep flip }
{
    WriterWork::Changing(Change {
        point,
        alteration: Alteration::Given(Masks { keep, flip }),
        stage: ChangeStage::Searching(Search::Unread),
        steps: 0,
    })
}

// A removal that begins.
fn removal_begun(point: u32) -> WriterWork
    ensures { result ≡ removal_begun point }
{
    WriterWork::Removing(Removal {
        point,
        stage: RemovalStage::Searching(Search::Unread),
        steps: 0,
    })
}

// Starts a put of a point and its value, by whether the record is in range.
pub fn put_started(fits: bool, writer: Writer, point: u32, value: u32) -> StartedWriter
    ensures { paper_started result ≡ start_work fits writer.work point (put_begun point value) }
{
    started(fits, writer, point, put_begun(point, value))
}

// Starts a change of a point's value to (value AND keep) XOR flip, by whether the record is in range.
pub fn change_started(fits: bool, writer: Writer, point: u32, keep: u32, flip: u32) -> StartedWriter
    ensures { paper_started result ≡ start_work fits writer.work point (change_begun point keep flip) }
{
    started(fits, writer, point, change_begun(point, keep, flip))
}

// Starts a removal of a point, by whether the record is in range.
pub fn removal_started(fits: bool, writer: Writer, point: u32) -> StartedWriter
    ensures { paper_started result ≡ start_work fits writer.work point (removal_begun point) }
{
    started(fits, writer, point, removal_begun(point))
}

// The writer of the record is given its work on a point, unless the call is refused.
#[tactic(auto, using(crate::proofs::StartsInPlace::start_in_place), unfolding(record::specs::Parts::with_writer))]
fn start(mut panel: Record, slots: &[u64], point: u32, work: WriterWork) -> Outcome<()>
    ensures { outcome result.panel slots.now (paper_start result.answer) ≡ start_writer panel slots.now point work }
{
    let fits = is_in_range(panel, slots.len());
    let next = started(fits, panel.writer, point, work);
    panel.writer = next.writer;
    Outcome {
        panel,
        answer: next.answer,
    }
}

// Starts a put of a point and its value.
#[tactic(auto, unfolding(crate::specs::Starts::start_put))]
pub fn start_put(panel: Record, slots: &[u64], point: u32, value: u32) -> Outcome<()>
    ensures { outcome result.panel slots.now (paper_start result.answer) ≡ start_put panel slots.now point value }
{
    start(panel, slots, point, put_begun(point, value))
}

// Starts a change of a point's value to (value AND keep) XOR flip.
#[tactic(auto, unfolding(crate::specs::Starts::start_change))]
pub fn start_change(panel: Record, slots: &[u64], point: u32, keep: u32, flip: u32) -> Outcome<()>
    ensures { outcome result.panel slots.now (paper_start result.answer) ≡ start_change panel slots.now point keep flip }
{
    start(panel, slots, point, change_begun(point, keep, flip))
}

// Starts a removal of a point.
#[tactic(auto, unfolding(crate::specs::Starts::start_removal))]
pub fn start_removal(panel: Record, slots: &[u64], point: u32) -> Outcome<()>
    ensures { outcome result.panel slots.now (paper_start result.answer) ≡ start_removal panel slots.now point }
{
    start(panel, slots, point, removal_begun(point))
}
