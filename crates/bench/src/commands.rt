// The lines behind the first, each run to its end.
ghost use Rattle.std.specs.Prelude.{◌≡◌, length, IfOk, OnOk, OnErr};
ghost use Rattle.std.specs.Io.KnownBytes.{Appends};
ghost use Rattle.record.specs.declared.Record.{Record};
ghost use Rattle.whole_operations.specs.Whole.{leaves, paper_written, record_after};
ghost use Rattle.line.specs.LineState.{command_of};
ghost use Rattle.text_buffer.specs.Filling.{filled_by, with_bytes, with_room, written_for_room};
ghost use Rattle.bench_lines.specs.Printed.{operation_line};
ghost use Rattle.bench.specs.Lines.{Runs};

use bench_lines::Lines;
use line::{CommandLine, Line};
use record::Record;
use refusal::Refusal;
use std::io;
use std::io::Write;
use whole_operations::{Changes, Finished, whole_lookup, whole_put, whole_removal};

// What a line changes that leaves a record of this reach as it is.
#[tactic(auto, unfolding(whole_operations::specs::Whole::leaves, whole_operations::specs::Whole::with_recount, record::specs::Parts::with_reach))]
fn unchanged(reach: u32) -> Changes
    ensures { (panel : Record) → panel.reach ≡ reach → leaves panel result ≡ panel }
{
    Changes { reach, count: None }
}

// Prints what a put or removal came to on a record of this reach.
fn wrote<const N: usize>(
    lines: &mut Lines<N>,
    reach: u32,
    letter: u8,
    point: u32,
    written: Result<Finished, Refusal>,
) -> Changes
    ensures { ((panel : Record) → panel.reach ≡ reach → leaves panel result ≡ record_after panel written) × (lines.new.text ≡ with_bytes lines.old.text (operation_line letter point (paper_written written))) }
{
    match written {
        Ok(finished) => {
            lines.operation(letter, point, Ok(finished.completion));
            finished.changes
        }
        Err(refusal) => {
            lines.operation(letter, point, Err(refusal));
            unchanged(reach)
        }
    }
}

// Runs the line of this number, behind as much output as the buffer holds. Where the output takes none of that, the
// line is not run.
#[tactic(auto, unfolding(crate::specs::Lines::printed_line, crate::specs::Lines::runs_to))]
pub(crate) fn run_line<W: Write, const N: usize>(
    to: &mut W,
    lines: &mut Lines<N>,
    panel: &Record,
    slots: &mut [u64],
    line: Line,
    number: u64,
) -> io::Result<Changes>
    ensures ran { IfOk result (λ changes. Runs panel.now slots.old (command_of line) number (filled_by (with_room lines.old.text.used (length lines.old.text.bytes) 128) lines.old.text.bytes) changes slots.new lines.new.text) }
    ensures written { OnOk result (Appends (W.contents to.old) (W.contents to.new) (written_for_room lines.old.text.used lines.old.text.bytes 128)) }
    ensures slots_kept { OnErr result (slots.new ≡ slots.old) }
    ensures text_kept { OnErr result (lines.new ≡ lines.old) }
{
    lines.make_room(to)?;
    Ok(run_in_room(lines, panel, slots, line, number))
}

// The same where the buffer has room for what the line prints.
fn run_in_room<const N: usize>(
    lines: &mut Lines<N>,
    panel: &Record,
    slots: &mut [u64],
    line: Line,
    number: u64,
) -> Changes
    ensures { Runs panel.now slots.old (command_of line) number lines.old.text result slots.new lines.new.text }
{
    match line.command() {
        Some(CommandLine::Put(put)) => {
            let written = whole_put(*panel, slots, put.point, put.value);
            wrote(lines, panel.reach, b'P', put.point, written)
        }
        Some(CommandLine::Lookup(point)) => {
            lines.operation(b'L', point, whole_lookup(*panel, slots, 0, point));
            unchanged(panel.reach)
        }
        Some(CommandLine::Removal(point)) => {
            let written = whole_removal(*panel, slots, point);
            wrote(lines, panel.reach, b'R', point, written)
        }
        None => {
            lines.unreadable(number);
            unchanged(panel.reach)
        }
    }
}
