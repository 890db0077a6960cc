// The writer's step.
ghost use Rattle.std.specs.Prelude.{◌≡◌};
ghost use Rattle.answers.specs.Answers.{paper_step, outcome};
ghost use Rattle.writer.specs.Step.{step_writer};
ghost use Rattle.writer.specs.Work.{step_stored};

use crate::work::{station_at, step_work};
use answers::{Outcome, StepResult};
use record::Record;
use record_ranges::is_in_range;

// The next step of the writer's put, change or removal, of a record that has been judged.
#[tactic(auto, using(crate::proofs::WorkLaws::station_at_below, crate::proofs::WorkLaws::count_stored_below), unfolding(crate::specs::Work::step_stored, record::specs::Parts::with_counts, record::specs::Parts::with_reach, record::specs::Parts::with_stations, record::specs::Parts::with_writer))]
pub fn step_judged(fits: bool, mut panel: Record, slots: &mut [u64]) -> Outcome<StepResult>
    ensures { outcome result.panel slots.new (paper_step result.answer) ≡ step_stored fits panel slots.old }
{
    let at = station_at(panel.writer);
    let next = step_work(&panel, fits, slots);
    panel.writer = next.writer;
    panel.reach = next.reach;
    panel.counts[next.at] = next.count;
    panel.stations[at] = next.station;
    Outcome {
        panel,
        answer: next.answer,
    }
}

// The next step of the writer's put, change or removal.
#[tactic(auto, using(crate::proofs::StepInPlace::step_in_place))]
pub fn step_writer(panel: Record, slots: &mut [u64]) -> Outcome<StepResult>
    ensures { outcome result.panel slots.new (paper_step result.answer) ≡ step_writer panel slots.old }
{
    step_judged(is_in_range(panel, slots.len()), panel, slots)
}
