// The two ways to carry out a call.
use answers::{Given, Outcome};
use calls::outcomes::outcome_of_call;
use calls::{Call, apply};
use lent_record::{
    start_change, start_command, start_lookup, start_put, start_removal, start_walk, step_reader,
    step_writer, turn,
};
use record::Record;

pub(crate) trait Way {
    fn carry_out(panel: Record, slots: &mut [u64], call: Call, frame: &[u8]) -> Outcome<Given>;
}

// By `apply`, which takes any call.
pub(crate) struct ByValue;

// In place: the record is lent to the call of its kind.
pub(crate) struct InPlace;

impl Way for ByValue {
    fn carry_out(panel: Record, slots: &mut [u64], call: Call, frame: &[u8]) -> Outcome<Given> {
        apply(panel, slots, call, frame)
    }
}

impl Way for InPlace {
    fn carry_out(panel: Record, slots: &mut [u64], call: Call, frame: &[u8]) -> Outcome<Given> {
        match call {
            Call::StartLookup { reader, point } => {
                outcome_of_call(start_lookup(panel, slots, reader, point))
            }
            Call::StartWalk { reader } => outcome_of_call(start_walk(panel, slots, reader)),
            Call::StepReader { reader } => outcome_of_call(step_reader(panel, slots, reader)),
            Call::StartPut { point, value } => {
                outcome_of_call(start_put(panel, slots, point, value))
            }
            Call::StartChange { point, keep, flip } => {
                outcome_of_call(start_change(panel, slots, point, keep, flip))
            }
            Call::StartRemoval { point } => outcome_of_call(start_removal(panel, slots, point)),
            Call::StartCommand => outcome_of_call(start_command(panel, slots, frame)),
            Call::StepWriter => outcome_of_call(step_writer(panel, slots)),
            Call::Turn => outcome_of_call(turn(panel, slots)),
        }
    }
}
