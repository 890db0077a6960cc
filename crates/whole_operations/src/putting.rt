// A whole put. Its steps look at no count, so they need m, k and the reach alone; the reach is kept beside the
// record, which stays as it is. The count that grows is worked out at the end.
ghost use Rattle.std.specs.Prelude.{true, false, ◌≡◌, length};
ghost use Rattle.record.specs.declared.WriterWork.TheVariants.{Idle};
ghost use Rattle.record.specs.Parts.{with_writer};
ghost use Rattle.record_ranges.specs.Ranges.{in_range};
ghost use Rattle.answers.specs.Answers.{ended, paper_completion, is_underway, underway, outcome};
ghost use Rattle.whole_operations.specs.Whole.{until_ended, writer_step, whole_put, leaves, changes_of, paper_written, changes_in, record_after};
ghost use Rattle.whole_operations.specs.WholeFacts.{is_putting, count_added};

use crate::changes::{Changes, Finished, IndexCount};
use crate::searching::whole_search;
use answers::Completion;
use counting::one_more;
use counting::steps::{OperationKind, step_bound, writer_counted};
use effects::memory::{perform, slot_stored};
use effects::update::Update;
use put::{put_access, put_advance, put_answered};
use record::parts::count_in;
use record::{Put, PutStage, Record, Search, WriterWork};
use refusal::Refusal;
use writer::judge_start;

// The count of the index that one point more uses.
#[tactic(auto, unfolding(crate::specs::WholeFacts::count_added, record::specs::Parts::count_of))]
fn count_added(panel: &Record, update: Update) -> Option<IndexCount>
    ensures { result ≡ count_added panel.now update }
{
    match update {
        Update::Counted(index) => Some(IndexCount {
            index,
            count: one_more(panel.m, count_in(&panel.counts, index)),
        }),
        _ => None,
    }
}

// The steps of a put behind its search, within a budget in which it ends. The record was judged when the put was
// started, and every step keeps it in range, so that no step needs to judge it again. It is lent, so that it is not
// copied once more.
fn steps(panel: &Record, slots: &mut [u64], begun: WriterWork, budget: u64) -> Finished
    requires { (in_range (length slots.old) (with_writer panel.now begun) ≡ true) × (is_putting begun ≡ true) × (is_underway (until_ended writer_step budget (outcome (with_writer panel.now begun) slots.old underway)).answer ≡ false) }
    ensures { outcome (with_writer (leaves panel.now result.changes) Idle) slots.new (ended (paper_completion result.completion)) ≡ until_ended writer_step budget (outcome (with_writer panel.now begun) slots.old underway) }
{
    let mut reach = panel.reach;
    let mut work = begun;
    for _ in 0..budget {
        let WriterWork::Putting(put) = writer_counted(work, panel.k) else {
            unreachable!()
        };
        let access = put_access(put, panel.m, reach);
        let word = perform(slots, access);
        let next = put_advance(put, panel.k, reach, slot_stored(access), word);
        reach = next.update.reach_after(reach);
        if let Some(ending) = next.progress {
            return Finished {
                changes: Changes {
                    reach,
                    count: count_added(panel, next.update),
                },
                completion: Completion {
                    ending,
                    steps: put.steps,
                },
            };
        }
        work = next.work;
    }
    unreachable!()
}

// Puts a point and its value, from the start to the end.
pub fn whole_put(
    panel: Record,
    slots: &mut [u64],
    point: u32,
    value: u32,
) -> Result<Finished, Refusal>
    ensures { (outcome (record_after panel result) slots.new (paper_written result) ≡ whole_put panel slots.old point value) × (changes_in result ≡ changes_of panel (whole_put panel slots.old point value)) }
{
    judge_start(panel, slots.len(), point)?;
    let found = whole_search(slots, panel.m, point, panel.reach);
    let put = Put {
        point,
        value,
        stage: PutStage::Searching(Search::Unread),
        steps: found.steps,
    };
    let begun = put_answered(put, found.answer);
    let budget = step_bound(OperationKind::Put, panel.k);
    let ran = steps(&panel, slots, begun.work, budget);
    Ok(Finished {
        changes: ran.changes.since(&panel),
        ..ran
    })
}
