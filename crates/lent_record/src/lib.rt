// The calls in place for a caller who keeps the record by value: each lends it by `&mut` to the call in place
// and gives it back with the answer.
#![tactic(auto)]

ghost use Rattle.std.specs.Prelude.{◌≡◌};
ghost use Rattle.answers.specs.Answers.{paper_start, paper_entry, paper_step, paper_turn, outcome};
ghost use Rattle.reader_step.specs.Reader.{step_reader};
ghost use Rattle.reader_starts.specs.Starts.{start_lookup, start_walk};
ghost use Rattle.writer.specs.Starts.{start_put, start_change, start_removal};
ghost use Rattle.writer.specs.Step.{step_writer};
ghost use Rattle.command.specs.Command.{start_command};
ghost use Rattle.dispatcher.specs.Turn.{take_turn};

use answers::{Entered, Outcome, Served, StepResult};
use record::Record;

pub fn start_lookup(mut panel: Record, slots: &[u64], reader: u32, point: u32) -> Outcome<()>
    ensures { outcome result.panel slots.now (paper_start result.answer) ≡ start_lookup panel slots.now reader point }
{
    let answer = in_place::start_lookup(&mut panel, slots, reader, point);
    Outcome { panel, answer }
}

pub fn start_walk(mut panel: Record, slots: &[u64], reader: u32) -> Outcome<()>
    ensures { outcome result.panel slots.now (paper_start result.answer) ≡ start_walk panel slots.now reader }
{
    let answer = in_place::start_walk(&mut panel, slots, reader);
    Outcome { panel, answer }
}

pub fn step_reader(mut panel: Record, slots: &[u64], reader: u32) -> Outcome<StepResult>
    ensures { outcome result.panel slots.now (paper_step result.answer) ≡ step_reader panel slots.now reader }
{
    let answer = in_place::step_reader(&mut panel, slots, reader);
    Outcome { panel, answer }
}

pub fn start_put(mut panel: Record, slots: &[u64], point: u32, value: u32) -> Outcome<()>
    ensures { outcome result.panel slots.now (paper_start result.answer) ≡ start_put panel slots.now point value }
{
    let answer = in_place::start_put(&mut panel, slots, point, value);
    Outcome { panel, answer }
}

pub fn start_change(
    mut panel: Record,
    slots: &[u64],
    point: u32,
    keep: u32,
    flip: u32,
) -> Outcome<()>
    ensures { outcome result.panel slots.now (paper_start result.answer) ≡ start_change panel slots.now point keep flip }
{
    let answer = in_place::start_change(&mut panel, slots, point, keep, flip);
    Outcome { panel, answer }
}

pub fn start_removal(mut panel: Record, slots: &[u64], point: u32) -> Outcome<()>
    ensures { outcome result.panel slots.now (paper_start result.answer) ≡ start_removal panel slots.now point }
{
    let answer = in_place::start_removal(&mut panel, slots, point);
    Outcome { panel, answer }
}

pub fn start_command(mut panel: Record, slots: &[u64], bytes: &[u8]) -> Outcome<Entered>
    ensures { outcome result.panel slots.now (paper_entry result.answer) ≡ start_command panel slots.now bytes.now }
{
    let answer = in_place::start_command(&mut panel, slots, bytes);
    Outcome { panel, answer }
}

pub fn step_writer(mut panel: Record, slots: &mut [u64]) -> Outcome<StepResult>
    ensures { outcome result.panel slots.new (paper_step result.answer) ≡ step_writer panel slots.old }
{
    let answer = in_place::step_writer(&mut panel, slots);
    Outcome { panel, answer }
}

pub fn turn(mut panel: Record, slots: &mut [u64]) -> Outcome<Served>
    ensures { outcome result.panel slots.new (paper_turn result.answer) ≡ take_turn panel slots.old }
{
    let answer = in_place::turn(&mut panel, slots);
    Outcome { panel, answer }
}
