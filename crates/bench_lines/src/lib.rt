// The lines that the bench program prints. Each function gives how much of the buffer is in use.
#![tactic(auto)]

mod lines;

ghost use Rattle.std.specs.Prelude.{◌≡◌, ◌+◌, ◌≤◌, length, IfOk, OnOk, OnErr};
ghost use Rattle.std.specs.Io.KnownBytes.{Appends};
ghost use Rattle.refusal.specs.Refusals.{number_of};
ghost use Rattle.answers.specs.Answers.{paper_ending, paper_completion, paper_whole};
ghost use Rattle.text_buffer.specs.Filling.{filled_by, with_bytes, with_room, written_for_room};
ghost use Rattle.bench_lines.specs.Printed.{refusal_shown, ending_shown, completion_shown, answer_shown, operation_line, unreadable_line, panel_line, refused_panel_line, last_line};

use answers::{Completion, Ending};
pub use lines::Lines;
use refusal::Refusal;
use std::io;
use std::io::Write;
use text_buffer::{byte, line_end, number, text};

// A line has fewer bytes.
const LINE: usize = 128;

// Makes room for a line.
pub fn room<W: Write>(to: &mut W, filled: usize, out: &[u8]) -> io::Result<usize>
    ensures used { IfOk result (λ used. used ≡ with_room filled (length out.now) 128) }
    ensures written { OnOk result (Appends (W.contents to.old) (W.contents to.new) (written_for_room filled out.now 128)) }
    ensures failed { OnErr result (length out.now ≤ filled + 128) }
{
    text_buffer::output::room(to, filled, out, LINE)
}

// "The first line shows m and k".
#[tactic(auto, using(text_buffer::proofs::FillingLaws::one_after_another), unfolding(text_buffer::specs::Filling::with_bytes, crate::specs::Printed::panel_line))]
pub fn panel(filled: usize, out: &mut [u8], m: u32, k: u32) -> usize
    ensures { filled_by result out.new ≡ with_bytes (filled_by filled out.old) (panel_line m k) }
{
    let named = text(filled, out, b"panel");
    let sized = number(named, out, u64::from(m));
    line_end(number(sized, out, u64::from(k)), out)
}

// "A first line that is missing, unreadable or refused prints "panel ! 1"".
#[tactic(auto, using(text_buffer::proofs::FillingLaws::one_after_another), unfolding(text_buffer::specs::Filling::with_bytes, crate::specs::Printed::refused_panel_line))]
pub fn panel_refused(filled: usize, out: &mut [u8]) -> usize
    ensures { filled_by result out.new ≡ with_bytes (filled_by filled out.old) refused_panel_line }
{
    line_end(text(filled, out, b"panel ! 1"), out)
}

// "A line it cannot read prints "?", a space and the line's number".
#[tactic(auto, using(text_buffer::proofs::FillingLaws::one_after_another), unfolding(text_buffer::specs::Filling::with_bytes, crate::specs::Printed::unreadable_line))]
pub fn unreadable(filled: usize, out: &mut [u8], line: u64) -> usize
    ensures { filled_by result out.new ≡ with_bytes (filled_by filled out.old) (unreadable_line line) }
{
    line_end(number(text(filled, out, b"?"), out, line), out)
}

// ""!" and a number a refusal, in place of what follows the point".
#[tactic(auto, using(text_buffer::proofs::FillingLaws::one_after_another), unfolding(text_buffer::specs::Filling::with_bytes, crate::specs::Printed::refusal_shown))]
fn refused(filled: usize, out: &mut [u8], refusal: Refusal) -> usize
    ensures { filled_by result out.new ≡ with_bytes (filled_by filled out.old) (refusal_shown (number_of refusal)) }
{
    number(text(filled, out, b" !"), out, u64::from(refusal.number()))
}

// "P shows point, slot, index"; "L point and value"; "R point and reach after".
#[tactic(auto, using(text_buffer::proofs::FillingLaws::one_after_another), unfolding(text_buffer::specs::Filling::with_bytes, crate::specs::Printed::ending_shown))]
fn ended(filled: usize, out: &mut [u8], ending: Ending) -> usize
    ensures { filled_by result out.new ≡ with_bytes (filled_by filled out.old) (ending_shown (paper_ending ending)) }
{
    match ending {
        Ending::LookedUp(value) | Ending::Changed(value) => number(filled, out, u64::from(value)),
        Ending::Placed(spot) => {
            let slot = number(filled, out, u64::from(spot.slot));
            number(slot, out, u64::from(spot.index))
        }
        Ending::Removed(reach) => number(filled, out, u64::from(reach)),
        Ending::NoPerch => refused(filled, out, Refusal::NoPerch),
        Ending::Unknown => refused(filled, out, Refusal::Unknown),
    }
}

// "the bench prints it last on P, L and R lines": the number of steps.
#[tactic(auto, using(text_buffer::proofs::FillingLaws::one_after_another), unfolding(text_buffer::specs::Filling::with_bytes, crate::specs::Printed::completion_shown))]
fn completed(filled: usize, out: &mut [u8], completion: Completion) -> usize
    ensures { filled_by result out.new ≡ with_bytes (filled_by filled out.old) (completion_shown (paper_completion completion)) }
{
    let shown = ended(filled, out, completion.ending);
    number(shown, out, u64::from(completion.steps))
}

// What an operation came to: it has ended or was refused.
#[tactic(auto, using(text_buffer::proofs::FillingLaws::one_after_another), unfolding(text_buffer::specs::Filling::with_bytes, crate::specs::Printed::answer_shown))]
fn answered(filled: usize, out: &mut [u8], answer: Result<Completion, Refusal>) -> usize
    ensures { filled_by result out.new ≡ with_bytes (filled_by filled out.old) (answer_shown (paper_whole answer)) }
{
    match answer {
        Ok(completion) => completed(filled, out, completion),
        Err(refusal) => refused(filled, out, refusal),
    }
}

// The line of an operation: its letter, the point, and what it came to.
#[tactic(auto, using(text_buffer::proofs::FillingLaws::one_after_another), unfolding(text_buffer::specs::Filling::with_bytes, crate::specs::Printed::operation_line))]
pub fn operation(
    filled: usize,
    out: &mut [u8],
    letter: u8,
    point: u32,
    answer: Result<Completion, Refusal>,
) -> usize
    ensures { filled_by result out.new ≡ with_bytes (filled_by filled out.old) (operation_line letter point (paper_whole answer)) }
{
    let named = number(byte(filled, out, letter), out, u64::from(point));
    line_end(answered(named, out, answer), out)
}

// "the last, at the end of input, the reach and the number of stored points".
#[tactic(auto, using(text_buffer::proofs::FillingLaws::one_after_another), unfolding(text_buffer::specs::Filling::with_bytes, crate::specs::Printed::last_line))]
pub fn finish(filled: usize, out: &mut [u8], reach: u32, points: u64) -> usize
    ensures { filled_by result out.new ≡ with_bytes (filled_by filled out.old) (last_line reach points) }
{
    let reached = number(text(filled, out, b"reach"), out, u64::from(reach));
    line_end(number(text(reached, out, b" points"), out, points), out)
}
