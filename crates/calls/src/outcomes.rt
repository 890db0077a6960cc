// The outcome of a call of any kind as one of any call.
ghost use Rattle.std.specs.Prelude.{◌≡◌};
ghost use Rattle.answers.specs.Answers.{paper_answer, paper_call};

use answers::{CallResult, Given, Outcome};

// Hands on what a call leaves, with its answer among those of all calls.
pub fn outcome_of_call<T: CallResult>(left: Outcome<T>) -> Outcome<Given>
    ensures panel { result.panel ≡ left.panel }
    ensures answer { paper_call result.answer ≡ paper_answer T.paper left.answer }
{
    Outcome {
        answer: left.answer.map(T::given),
        panel: left.panel,
    }
}
