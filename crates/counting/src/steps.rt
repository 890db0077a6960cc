// The steps that an operation underway has made. A step is counted before its three parts, once for all
// readers and once for the writer.
ghost use Rattle.std.specs.Prelude.{◌≡◌};
ghost use Rattle.counting.specs.Steps.{step_bound, step_counted, reader_counted, writer_counted, steps_made};

use crate::one_more;
use record::{Change, Lookup, Put, ReaderWork, Removal, WriterWork};

// The operations whose steps are counted. A walk's are not.
#[derive(Clone, Copy)]
pub enum OperationKind {
    Lookup,
    Put,
    Change,
    Removal,
}

// The steps that an operation takes at most, with k hash functions.
pub fn step_bound(kind: OperationKind, k: u32) -> u64
    ensures { result ≡ step_bound kind k }
{
    let k = u64::from(k);
    match kind {
        OperationKind::Lookup => k + 1,
        OperationKind::Put => 2 * k + 2,
        OperationKind::Change => k + 2,
        OperationKind::Removal => k + 3,
    }
}

// The count with one step more. A k above 64, which no record in range has, is taken for 64: with that no bound
// leaves a u32.
#[tactic(auto, unfolding(crate::specs::Steps::step_counted))]
pub fn step_counted(kind: OperationKind, k: u32, steps: u32) -> u32
    ensures { result ≡ step_counted kind k steps }
{
    let bound = step_bound(kind, k.min(64));
    one_more(bound as u32, steps)
}

// A reader's work with the step counted that it makes now.
#[tactic(auto, unfolding(crate::specs::Steps::lookup_counted, crate::specs::Steps::reader_counted))]
pub fn reader_counted(work: ReaderWork, k: u32) -> ReaderWork
    ensures { result ≡ reader_counted k work }
{
    match work {
        ReaderWork::LookingUp(lookup) => ReaderWork::LookingUp(Lookup {
            steps: step_counted(OperationKind::Lookup, k, lookup.steps),
            ..lookup
        }),
        ReaderWork::Idle | ReaderWork::Walking(_) => work,
    }
}

// The writer's work with the step counted that it makes now.
#[tactic(auto, unfolding(crate::specs::Steps::put_counted, crate::specs::Steps::change_counted, crate::specs::Steps::removal_counted, crate::specs::Steps::writer_counted))]
pub fn writer_counted(work: WriterWork, k: u32) -> WriterWork
    ensures { result ≡ writer_counted k work }
{
    match work {
        WriterWork::Idle => WriterWork::Idle,
        WriterWork::Putting(put) => WriterWork::Putting(Put {
            steps: step_counted(OperationKind::Put, k, put.steps),
            ..put
        }),
        WriterWork::Changing(change) => WriterWork::Changing(Change {
            steps: step_counted(OperationKind::Change, k, change.steps),
            ..change
        }),
        WriterWork::Removing(removal) => WriterWork::Removing(Removal {
            steps: step_counted(OperationKind::Removal, k, removal.steps),
            ..removal
        }),
    }
}

// The steps that the writer's operation has made; without work there are none.
pub fn steps_made(work: WriterWork) -> u32
    ensures { result ≡ steps_made work }
{
    match work {
        WriterWork::Idle => 0,
        WriterWork::Putting(put) => put.steps,
        WriterWork::Changing(change) => change.steps,
        WriterWork::Removing(removal) => removal.steps,
    }
}
