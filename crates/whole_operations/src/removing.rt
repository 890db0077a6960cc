// A whole removal. Its last steps look at the counts, so that it keeps a record of its own.
ghost use Rattle.std.specs.Prelude.{true, false, ◌≡◌, length};
ghost use Rattle.record.specs.declared.WriterWork.TheVariants.{Idle, Removing};
ghost use Rattle.record.specs.declared.RemovalStage.TheVariants.{Found};
ghost use Rattle.record.specs.Parts.{with_writer};
ghost use Rattle.record_ranges.specs.Ranges.{in_range};
ghost use Rattle.answers.specs.Answers.{ended, paper_completion, is_underway, underway, outcome};
ghost use Rattle.whole_operations.specs.Whole.{until_ended, writer_step, whole_removal, leaves, changes_of, paper_written, changes_in, record_after};
ghost use Rattle.whole_operations.specs.WholeFacts.{removing_from};

use crate::changes::{Changes, Finished, IndexCount};
use crate::searching::whole_search;
use answers::{Completion, Ending};
use counting::steps::{OperationKind, step_bound, steps_made, writer_counted};
use effects::memory::perform;
use record::parts::count_in;
use record::{Place, Record, Removal, RemovalStage, WriterWork};
use refusal::Refusal;
use removal::{removal_access, removal_advance};
use writer::judge_start;

// The steps of a removal behind its search, which found the point at this place and took so many steps before, within a
// budget in which it ends. The record was judged when the removal was started, and every step keeps it in range,
// so that no step needs to judge it again.
fn steps(
    panel: Record,
    slots: &mut [u64],
    point: u32,
    place: Place,
    before: u32,
    budget: u64,
) -> Finished
    requires { (in_range (length slots.old) (with_writer panel (removing_from point place before)) ≡ true) × (is_underway (until_ended writer_step budget (outcome (with_writer panel (removing_from point place before)) slots.old underway)).answer ≡ false) }
    ensures { outcome (with_writer (leaves panel result.changes) Idle) slots.new (ended (paper_completion result.completion)) ≡ until_ended writer_step budget (outcome (with_writer panel (removing_from point place before)) slots.old underway) }
{
    let mut held = panel;
    let mut work = WriterWork::Removing(Removal {
        point,
        stage: RemovalStage::Found(place),
        steps: before,
    });
    for _ in 0..budget {
        let counted = writer_counted(work, held.k);
        let WriterWork::Removing(removal) = counted else {
            unreachable!()
        };
        let word = perform(slots, removal_access(removal, &held));
        let next = removal_advance(removal, &held, word);
        held = next.update.applied_to(held);
        if let Some(ending) = next.progress {
            let index = place.index;
            let count = count_in(&held.counts, index);
            return Finished {
                changes: Changes {
                    reach: held.reach,
                    count: Some(IndexCount { index, count }),
                },
                completion: Completion {
                    ending,
                    steps: steps_made(counted),
                },
            };
        }
        work = next.work;
    }
    unreachable!()
}

// Removes a point, from the start to the end.
pub fn whole_removal(panel: Record, slots: &mut [u64], point: u32) -> Result<Finished, Refusal>
    ensures { (outcome (record_after panel result) slots.new (paper_written result) ≡ whole_removal panel slots.old point) × (changes_in result ≡ changes_of panel (whole_removal panel slots.old point)) }
{
    judge_start(panel, slots.len(), point)?;
    let found = whole_search(slots, panel.m, point, panel.reach);
    let Some(place) = found.answer else {
        return Ok(Finished {
            changes: Changes {
                reach: panel.reach,
                count: None,
            },
            completion: Completion {
                ending: Ending::Unknown,
                steps: found.steps,
            },
        });
    };
    let budget = step_bound(OperationKind::Removal, panel.k);
    let ran = steps(panel, slots, point, place, found.steps, budget);
    Ok(Finished {
        changes: ran.changes.since(&panel),
        ..ran
    })
}
