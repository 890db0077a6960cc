// What the calls give, a type for each kind of call that gives something, and what they leave besides the slots.
#![tactic(auto)]

ghost use Rattle.std.specs.Prelude.{◌≡◌};
ghost use Rattle.answers.specs.Answers.{Answer, step_answer, paper_progress, paper_result, paper_entered, paper_served, paper_given, started};

use record::Record;
use refusal::Refusal;

// What ends a lookup, put, change or removal.
#[derive(Clone, Copy)]
pub enum Ending {
    // a lookup: the point's value
    LookedUp(u32),
    // a put: where the point is stored
    Placed(Spot),
    // a change: the new value
    Changed(u32),
    // a removal: the reach after it
    Removed(u32),
    // a put: refusal 6
    NoPerch,
    // a lookup, change or removal: refusal 7
    Unknown,
}

// Where a put stored its point: the slot, and the index of the position.
#[derive(Clone, Copy)]
pub struct Spot {
    pub slot: u32,
    pub index: u32,
}

// A lookup, put, change or removal that has ended.
#[derive(Clone, Copy)]
pub struct Completion {
    pub ending: Ending,
    // the number of steps it took
    pub steps: u32,
}

// What a step gives that is carried out.
#[derive(Clone, Copy)]
pub enum StepResult {
    Underway,
    Ended(Completion),
    // the word that a walk read
    Walked(u64),
    // the same, and the walk has ended
    WalkedLast(u64),
}

// What the command entry gives.
#[derive(Clone, Copy)]
pub enum Entered {
    Started,
    // the station's last command again: its stored answer, which takes no step
    GivenAgain { answer: Option<u32>, steps: u32 },
}

// What a turn gives: the party served, 0 the writer and n + 1 reader n, and what its step gave.
#[derive(Clone, Copy)]
pub struct Served {
    pub party: u32,
    pub result: StepResult,
}

// What any call of a list gives: each thing that some kind of call gives, once.
#[derive(Clone, Copy)]
pub enum Given {
    Started,
    GivenAgain { answer: Option<u32>, steps: u32 },
    Stepped(StepResult),
    Served(Served),
}

// What a call leaves: its answer, and the record. The answer lies in front: behind the record there may be
// padding before one that holds a word, with which the compiler copies the record more often.
#[derive(Clone, Copy)]
pub struct Outcome<T> {
    pub answer: Result<T, Refusal>,
    pub panel: Record,
}

// What one kind of call gives, among what all calls give.
pub trait CallResult {
    // in document 01's words
    ghost paper: { Self → Answer };

    fn given(self) -> Given
        ensures { paper_given result ≡ paper self };
}

// A start gives nothing but that the operation has been started.
impl CallResult for () {
    ghost paper = { λ _. started };

    fn given(self) -> Given {
        Given::Started
    }
}

impl CallResult for Entered {
    ghost paper = { paper_entered };

    fn given(self) -> Given {
        match self {
            Entered::Started => Given::Started,
            Entered::GivenAgain { answer, steps } => Given::GivenAgain { answer, steps },
        }
    }
}

impl CallResult for StepResult {
    ghost paper = { paper_result };

    fn given(self) -> Given {
        Given::Stepped(self)
    }
}

impl CallResult for Served {
    ghost paper = { paper_served };

    fn given(self) -> Given {
        Given::Served(self)
    }
}

// What a step gives, by the ending that the put, change or removal has come to, none while it is underway, and
// by the steps counted so far.
pub fn result_of(ending: Option<Ending>, steps: u32) -> StepResult
    ensures { paper_result result ≡ step_answer steps (paper_progress ending) }
{
    match ending {
        None => StepResult::Underway,
        Some(ending) => StepResult::Ended(Completion { ending, steps }),
    }
}
