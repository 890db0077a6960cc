// Any call of document 01, and N1's turn, as a value, and `apply`, which carries it out. The claim about
// every list of such calls stands in the crate `history`.
#![tactic(auto)]

pub mod outcomes;

ghost use Rattle.std.specs.Prelude.{◌≡◌};
ghost use Rattle.answers.specs.Answers.{paper_call, outcome};
ghost use Rattle.calls.specs.Calls.{applied};

use crate::outcomes::outcome_of_call;
use answers::{Given, Outcome};
use command::start_command;
use dispatcher::turn;
use reader_starts::{start_lookup, start_walk};
use reader_step::step_reader;
use record::Record;
use writer::{start_change, start_put, start_removal, step_writer};

// A call with its arguments. A command's frame is lent beside it.
#[derive(Clone, Copy)]
pub enum Call {
    StartLookup { reader: u32, point: u32 },
    StartWalk { reader: u32 },
    StepReader { reader: u32 },
    StartPut { point: u32, value: u32 },
    StartChange { point: u32, keep: u32, flip: u32 },
    StartRemoval { point: u32 },
    StartCommand,
    StepWriter,
    Turn,
}

// Carries out a call. A command takes the frame lent; the other calls do not look at it.
#[tactic(auto, unfolding(crate::specs::Calls::applied))]
pub fn apply(panel: Record, slots: &mut [u64], call: Call, frame: &[u8]) -> Outcome<Given>
    ensures { outcome result.panel slots.new (paper_call result.answer) ≡ applied panel slots.old call frame.now }
{
    match call {
        Call::StartLookup { reader, point } => outcome_of_call(start_lookup(
            panel, slots, reader, point,
        )),
        Call::StartWalk { reader } => outcome_of_call(start_walk(panel, slots, reader)),
        Call::StepReader { reader } => outcome_of_call(step_reader(panel, slots, reader)),
        Call::StartPut { point, value } => outcome_of_call(start_put(panel, slots, point, value)),
        Call::StartChange { point, keep, flip } => {
            outcome_of_call(start_change(panel, slots, point, keep, flip))
        }
        Call::StartRemoval { point } => outcome_of_call(start_removal(panel, slots, point)),
        Call::StartCommand => outcome_of_call(start_command(panel, slots, frame)),
        Call::StepWriter => outcome_of_call(step_writer(panel, slots)),
        Call::Turn => outcome_of_call(turn(panel, slots)),
    }
}
