// What an answer adds to the sum that is printed.
use answers::{Ending, Served, StepResult};
use refusal::Refusal;
use slot_words::word::value_of;

pub(crate) trait Worth {
    fn worth(self) -> u64;
}

// A refusal adds a million, so that none goes unseen.
impl<T: Worth> Worth for Result<T, Refusal> {
    fn worth(self) -> u64 {
        match self {
            Ok(given) => given.worth(),
            Err(_) => 1000000,
        }
    }
}

// A start.
impl Worth for () {
    fn worth(self) -> u64 {
        1
    }
}

impl Worth for StepResult {
    fn worth(self) -> u64 {
        match self {
            StepResult::Underway => 1,
            StepResult::Ended(completion) => {
                completion
                    .ending
                    .worth()
                    .wrapping_add(u64::from(completion.steps))
            }
            StepResult::Walked(word) | StepResult::WalkedLast(word) => u64::from(value_of(word)),
        }
    }
}

// The party's number counts too.
impl Worth for Served {
    fn worth(self) -> u64 {
        u64::from(self.party).wrapping_add(self.result.worth())
    }
}

impl Worth for Ending {
    fn worth(self) -> u64 {
        match self {
            Ending::LookedUp(number) | Ending::Changed(number) | Ending::Removed(number) => {
                u64::from(number)
            }
            Ending::Placed(spot) => u64::from(spot.slot),
            Ending::NoPerch => 6,
            Ending::Unknown => 7,
        }
    }
}
