// The two ways to make a call on a record that the caller keeps.
use answers::{Outcome, StepResult};
use record::Record;
use refusal::Refusal;

pub(crate) trait Way {
    fn step_reader(panel: &mut Record, slots: &[u64], reader: u32) -> Result<StepResult, Refusal>;

    fn start_lookup(
        panel: &mut Record,
        slots: &[u64],
        reader: u32,
        point: u32,
    ) -> Result<(), Refusal>;

    fn step_writer(panel: &mut Record, slots: &mut [u64]) -> Result<StepResult, Refusal>;
}

// The call takes the record by value, and hands it back.
pub(crate) struct ByValue;

// The record is lent to the call.
pub(crate) struct InPlace;

impl Way for ByValue {
    fn step_reader(panel: &mut Record, slots: &[u64], reader: u32) -> Result<StepResult, Refusal> {
        kept(lent_record::step_reader(*panel, slots, reader), panel)
    }

    fn start_lookup(
        panel: &mut Record,
        slots: &[u64],
        reader: u32,
        point: u32,
    ) -> Result<(), Refusal> {
        kept(
            lent_record::start_lookup(*panel, slots, reader, point),
            panel,
        )
    }

    fn step_writer(panel: &mut Record, slots: &mut [u64]) -> Result<StepResult, Refusal> {
        kept(lent_record::step_writer(*panel, slots), panel)
    }
}

fn kept<T: Copy>(left: Outcome<T>, panel: &mut Record) -> Result<T, Refusal> {
    *panel = left.panel;
    left.answer
}

impl Way for InPlace {
    fn step_reader(panel: &mut Record, slots: &[u64], reader: u32) -> Result<StepResult, Refusal> {
        in_place::step_reader(panel, slots, reader)
    }

    fn start_lookup(
        panel: &mut Record,
        slots: &[u64],
        reader: u32,
        point: u32,
    ) -> Result<(), Refusal> {
        in_place::start_lookup(panel, slots, reader, point)
    }

    fn step_writer(panel: &mut Record, slots: &mut [u64]) -> Result<StepResult, Refusal> {
        in_place::step_writer(panel, slots)
    }
}
