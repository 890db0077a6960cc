// Answers and panels as the lines show them.
use answers::{Completion, Ending, StepResult};
use record::Record;
use refusal::Refusal;
use std::fmt;

// What was given, or a mark and the refusal.
#[derive(Drop)]
pub(crate) struct Answer<T>(pub Result<T, Refusal>);

impl<T: fmt::Display> fmt::Display for Answer<T> {
    fn fmt<W: fmt::Write>(&self, f: &mut fmt::Formatter<W>) -> fmt::Result {
        match &self.0 {
            Ok(given) => write!(f, "{given}"),
            Err(refusal) => write!(f, "! {refusal}"),
        }
    }
}

// What a step gives.
#[derive(Clone, Copy)]
pub(crate) struct Given(pub StepResult);

impl fmt::Display for Given {
    fn fmt<W: fmt::Write>(&self, f: &mut fmt::Formatter<W>) -> fmt::Result {
        match self.0 {
            StepResult::Underway => f.write_str("underway"),
            StepResult::Ended(Completion { ending, steps }) => {
                write!(f, "{} steps {steps}", End(ending))
            }
            StepResult::Walked(word) => write!(f, "word {word}"),
            StepResult::WalkedLast(word) => write!(f, "last {word}"),
        }
    }
}

#[derive(Clone, Copy)]
struct End(Ending);

impl fmt::Display for End {
    fn fmt<W: fmt::Write>(&self, f: &mut fmt::Formatter<W>) -> fmt::Result {
        match self.0 {
            Ending::LookedUp(value) => write!(f, "found {value}"),
            Ending::Placed(spot) => write!(f, "placed {} {}", spot.slot, spot.index),
            Ending::Changed(value) => write!(f, "changed {value}"),
            Ending::Removed(reach) => write!(f, "removed {reach}"),
            Ending::NoPerch => write!(f, "ended ! {}", Refusal::NoPerch),
            Ending::Unknown => write!(f, "ended ! {}", Refusal::Unknown),
        }
    }
}

// The words, each behind a space.
#[derive(Clone, Copy)]
pub(crate) struct Words<'a>(pub &'a [u64]);

impl fmt::Display for Words<'_> {
    fn fmt<W: fmt::Write>(&self, f: &mut fmt::Formatter<W>) -> fmt::Result {
        for word in self.0 {
            write!(f, " {word}")?;
        }
        Ok(())
    }
}

// The reach, the counts of indices 1 to k, and the slots.
#[derive(Clone, Copy)]
pub(crate) struct State<'a> {
    pub panel: Record,
    pub slots: &'a [u64],
}

impl fmt::Display for State<'_> {
    fn fmt<W: fmt::Write>(&self, f: &mut fmt::Formatter<W>) -> fmt::Result {
        write!(f, "reach {} counts", self.panel.reach)?;
        for count in self.panel.counts.iter().take(self.panel.k as usize) {
            write!(f, " {count}")?;
        }
        write!(f, " slots{}", Words(self.slots))
    }
}
