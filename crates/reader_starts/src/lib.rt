// The calls that start a reader's lookup or walk. A start takes no step.
#![tactic(auto)]

ghost use Rattle.std.specs.Prelude.{◌≡◌};
ghost use Rattle.refusal.specs.Refusals.{paper_judged};
ghost use Rattle.answers.specs.Answers.{paper_start, outcome};
ghost use Rattle.reader_starts.specs.Starts.{paper_started, start_refusal, lookup_refusal, given_work, lookup_work, walk_work, start_lookup, start_walk};

use answers::Outcome;
use reader_step::{Effect, ReaderAfter};
use record::idle::is_reader_idle;
use record::parts::work_of;
use record::{Lookup, Reader, ReaderWork, Record, Search, Walk};
use record_ranges::is_in_range;
use refusal::Refusal;
use slot_words::points::is_valid_point;

// Document 01's order: 1, 3, 2, 4. A walk names no point, and 2 is not judged.
#[tactic(auto, unfolding(refusal::specs::Judging::refuse_if, crate::specs::Starts::lookup_work_refusal, crate::specs::Starts::walk_work_refusal))]
fn judge_start(fits: bool, reader: u32, point: Option<u32>, work: ReaderWork) -> Result<(), Refusal>
    ensures { paper_judged result ≡ start_refusal fits reader point work }
{
    if !fits {
        return Err(Refusal::Misfit);
    }
    if 15 < reader {
        return Err(Refusal::Reader);
    }
    if point.is_some_and(|point| !is_valid_point(point)) {
        return Err(Refusal::Address);
    }
    if !is_reader_idle(work) {
        return Err(Refusal::Engaged);
    }
    Ok(())
}

// Whether a lookup may start.
#[tactic(auto, unfolding(crate::specs::Starts::lookup_refusal))]
pub fn judge_lookup(panel: Record, lent: usize, reader: u32, point: u32) -> Result<(), Refusal>
    ensures { paper_judged result ≡ lookup_refusal lent panel reader point }
{
    let fits = is_in_range(panel, lent);
    judge_start(fits, reader, Some(point), work_of(panel, reader))
}

// The reader is given its work, unless the call is refused.
#[tactic(auto, using(reader_step::proofs::StepWork::by_verdict), unfolding(crate::specs::Starts::given_work))]
fn started(
    fits: bool,
    reader: u32,
    found: Reader,
    point: Option<u32>,
    work: ReaderWork,
) -> ReaderAfter<()>
    ensures { paper_started result ≡ given_work (start_refusal fits reader point found.work) found.work work }
{
    let judged = judge_start(fits, reader, point, found.work);
    ReaderAfter::new(found, judged.map(|()| Effect { work, result: () }))
}

// Starts a lookup of a point, by what it needs of the record: whether that is in range, and the reader as
// found there. A start that is refused leaves the reader as it is.
#[tactic(auto, unfolding(crate::specs::Starts::lookup_work))]
pub fn lookup_started(fits: bool, reader: u32, found: Reader, point: u32) -> ReaderAfter<()>
    ensures { paper_started result ≡ lookup_work fits reader point found.work }
{
    let new = ReaderWork::LookingUp(Lookup {
        point,
        search: Search::Unread,
        steps: 0,
    });
    started(fits, reader, found, Some(point), new)
}

// Starts a walk over the slots, likewise.
#[tactic(auto, unfolding(crate::specs::Starts::walk_work))]
pub fn walk_started(fits: bool, reader: u32, found: Reader) -> ReaderAfter<()>
    ensures { paper_started result ≡ walk_work fits reader found.work }
{
    let new = ReaderWork::Walking(Walk { next: 0 });
    started(fits, reader, found, None, new)
}

// Starts a reader's lookup of a point.
#[tactic(auto, unfolding(reader_step::specs::Reader::after_step))]
pub fn start_lookup(panel: Record, slots: &[u64], reader: u32, point: u32) -> Outcome<()>
    ensures { outcome result.panel slots.now (paper_start result.answer) ≡ start_lookup panel slots.now reader point }
{
    let fits = is_in_range(panel, slots.len());
    let found = Reader {
        work: work_of(panel, reader),
    };
    lookup_started(fits, reader, found, point).put_back(panel, reader)
}

// Starts a reader's walk over the slots.
#[tactic(auto, unfolding(reader_step::specs::Reader::after_step))]
pub fn start_walk(panel: Record, slots: &[u64], reader: u32) -> Outcome<()>
    ensures { outcome result.panel slots.now (paper_start result.answer) ≡ start_walk panel slots.now reader }
{
    let fits = is_in_range(panel, slots.len());
    let found = Reader {
        work: work_of(panel, reader),
    };
    walk_started(fits, reader, found).put_back(panel, reader)
}
