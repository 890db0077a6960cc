// The dispatcher: the writer and the sixteen readers take turns in a fixed circle, and a party without work is
// passed over. A turn is the very step of the party that it serves.
#![tactic(auto)]

ghost use Rattle.std.specs.Prelude.{ℕ, List, ◌≡◌};
ghost use Rattle.answers.specs.Answers.{paper_step, paper_turn, outcome};
ghost use Rattle.dispatcher.specs.Due.{turn_answer, turned_by, writer_turn, reader_turn};
ghost use Rattle.dispatcher.specs.Turn.{take_turn};

use answers::{Outcome, Served, StepResult};
use circle::{party_due, place_after, readers_marked};
use record::Record;
use record::parts::{numbered_place, with_place};
use record_ranges::is_in_range;
use refusal::Refusal;

// What a turn answers, by what the step of the party due gave.
#[tactic(auto, using(crate::proofs::TurnLaws::turn_answered))]
pub fn turn_answer(due: u32, answer: Result<StepResult, Refusal>) -> Result<Served, Refusal>
    ensures { paper_turn result ≡ turn_answer due (paper_step answer) }
{
    answer.map(|given| Served {
        party: due,
        result: given,
    })
}

// A turn whose step has come to this.
fn turned(due: u32, step: Outcome<StepResult>) -> Outcome<Served>
    ensures { (slots : List ℕ) → outcome result.panel slots (paper_turn result.answer) ≡ turned_by due (outcome step.panel slots (paper_step step.answer)) }
{
    Outcome {
        panel: step.panel,
        answer: turn_answer(due, step.answer),
    }
}

// A turn that is due to the writer.
#[tactic(auto, unfolding(crate::specs::Due::writer_turn))]
fn writer_turn(panel: Record, slots: &mut [u64]) -> Outcome<Served>
    ensures { outcome result.panel slots.new (paper_turn result.answer) ≡ writer_turn panel slots.old }
{
    turned(0, writer::step_judged(true, with_place(panel, 1), slots))
}

// A turn that is due to a reader, to nobody (17), or on a record out of range (18). In the last two cases the
// step of reader 0 is refused as the turn is.
#[tactic(auto, using(record::proofs::Numbered::place_below), unfolding(crate::specs::Due::reader_turn))]
fn reader_turn(panel: Record, slots: &[u64], due: u32) -> Outcome<Served>
    ensures { outcome result.panel slots.now (paper_turn result.answer) ≡ reader_turn due panel slots.now }
{
    let placed = with_place(panel, place_after(panel.place, due));
    let reader = numbered_place(due, 16) as u32;
    turned(
        due,
        reader_step::step_judged(due < 18, placed, slots, reader),
    )
}

// A turn. The record is judged once, not again by the step.
#[tactic(auto, unfolding(crate::proofs::TurnLaws::due_on))]
pub fn turn(panel: Record, slots: &mut [u64]) -> Outcome<Served>
    ensures { outcome result.panel slots.new (paper_turn result.answer) ≡ take_turn panel slots.old }
{
    let fits = is_in_range(panel, slots.len());
    let marks = readers_marked(panel.readers);
    let due = party_due(fits, panel.place, panel.writer, marks);
    if due == 0 {
        writer_turn(panel, slots)
    } else {
        reader_turn(panel, slots, due)
    }
}
