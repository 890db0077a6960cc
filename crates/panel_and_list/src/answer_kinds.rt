// What an answer tells of the operation.
ghost use Rattle.std.specs.Prelude.{◌≡◌};
ghost use Rattle.answers.specs.Answers.{paper_result, paper_call, has_ended, is_refused, is_started};
ghost use Rattle.history.specs.Log.{served_by};
ghost use Rattle.panel_and_list.specs.Kept.{serves_writer};

use answers::{Given, Served, StepResult};
use refusal::Refusal;

// A step has ended the operation.
pub(crate) fn has_ended(answer: Result<Given, Refusal>) -> bool
    ensures { result ≡ has_ended (paper_call answer) }
{
    match answer {
        Ok(Given::Stepped(step)) => has_ended_by(step),
        Ok(Given::Served(served)) => has_ended_by(served.result),
        _ => false,
    }
}

fn has_ended_by(step: StepResult) -> bool
    ensures { result ≡ has_ended (paper_result step) }
{
    matches!(step, StepResult::Ended(_) | StepResult::WalkedLast(_))
}

// The call was refused, and nothing happened.
pub(crate) fn is_refused(answer: Result<Given, Refusal>) -> bool
    ensures { result ≡ is_refused (paper_call answer) }
{
    answer.is_err()
}

// The call has started an operation.
pub(crate) fn is_started(answer: Result<Given, Refusal>) -> bool
    ensures { result ≡ is_started (paper_call answer) }
{
    matches!(answer, Ok(Given::Started))
}

// A turn has served the writer.
pub(crate) fn serves_writer(answer: Result<Given, Refusal>) -> bool
    ensures { result ≡ serves_writer (served_by (paper_call answer)) }
{
    matches!(answer, Ok(Given::Served(Served { party: 0, .. })))
}
