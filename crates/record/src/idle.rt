// Whether a party has work underway: once for each kind of work.
ghost use Rattle.std.specs.Prelude.{◌≡◌};
ghost use Rattle.record.specs.Idle.{is_reader_idle, is_writer_idle};

use crate::{ReaderWork, WriterWork};

pub fn is_reader_idle(work: ReaderWork) -> bool
    ensures { result ≡ is_reader_idle work }
{
    matches!(work, ReaderWork::Idle)
}

pub fn is_writer_idle(work: WriterWork) -> bool
    ensures { result ≡ is_writer_idle work }
{
    matches!(work, WriterWork::Idle)
}
