// A call's answer in a digest. The cases have numbers behind those of the refusals.
use crate::digest::{Digest, Digested};
use answers::{Completion, Ending, Given, Served, StepResult};
use refusal::Refusal;

impl Digested for Result<Given, Refusal> {
    fn add_to(self, digest: &mut Digest) {
        match self {
            Ok(given) => given.add_to(digest),
            Err(refusal) => digest.add(refusal.number()),
        }
    }
}

impl Digested for Given {
    fn add_to(self, digest: &mut Digest) {
        match self {
            Given::Started => digest.add(15),
            Given::GivenAgain { answer, steps } => {
                digest.add(16);
                answer.add_to(digest);
                digest.add(steps);
            }
            Given::Stepped(result) => result.add_to(digest),
            Given::Served(Served { party, result }) => {
                digest.add_all(&[26, party]);
                result.add_to(digest);
            }
        }
    }
}

// A station's stored answer.
impl Digested for Option<u32> {
    fn add_to(self, digest: &mut Digest) {
        match self {
            Some(value) => digest.add_all(&[0, value]),
            None => digest.add(1),
        }
    }
}

impl Digested for StepResult {
    fn add_to(self, digest: &mut Digest) {
        match self {
            StepResult::Underway => digest.add(17),
            StepResult::Ended(Completion { ending, steps }) => {
                ending.add_to(digest);
                digest.add(steps);
            }
            StepResult::Walked(word) => {
                digest.add(24);
                digest.add_word(word);
            }
            StepResult::WalkedLast(word) => {
                digest.add(25);
                digest.add_word(word);
            }
        }
    }
}

impl Digested for Ending {
    fn add_to(self, digest: &mut Digest) {
        match self {
            Ending::LookedUp(value) => digest.add_all(&[18, value]),
            Ending::Placed(spot) => digest.add_all(&[19, spot.slot, spot.index]),
            Ending::Changed(value) => digest.add_all(&[20, value]),
            Ending::Removed(reach) => digest.add_all(&[21, reach]),
            Ending::NoPerch => digest.add(22),
            Ending::Unknown => digest.add(23),
        }
    }
}
