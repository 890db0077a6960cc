// The orders program, for the inspector: carries out any list of calls from standard input, each by
// `calls::apply` with the plain list beside it, and prints what each answers.
#![tactic(auto)]

mod faults;
mod hexadecimal;
mod line;
mod numbers;
mod output;
mod reading;
mod run;
mod showing;
mod texts;
mod words;

use line::Line;
use output::Output;
use run::{Run, SLOTS};
use std::io;
use std::io::{Read, Write};

// How much is read at a time.
const PART: usize = 65536;

fn main(rt: HostRuntime) -> io::Result<()> {
    let mut output = Output::new(rt.stdout());
    let mut slots = [0u64; SLOTS];
    let mut run = Run::new(&mut slots);
    carry_out_all(&mut rt.stdin(), &mut run, &mut output)?;
    output.flush()
}

// A read that fails ends the input. Nothing says that it ends, so the loop has a bound, which no run reaches. What
// follows the last LF is a line only if it is not empty.
fn carry_out_all<R: Read, W: Write>(
    input: &mut R,
    run: &mut Run,
    output: &mut W,
) -> io::Result<()> {
    let mut part = [0u8; PART];
    let mut line = Line::new();
    for _ in 0..u64::MAX {
        let count = input.read(&mut part).unwrap_or(0);
        if count == 0 {
            break;
        }
        carry_out_part(&part[..count], &mut line, run, output)?;
    }
    if line.is_empty() {
        return Ok(());
    }
    run.carry_out(&line, output)
}

// The lines that end in this part; what follows the last LF begins the next one.
fn carry_out_part<W: Write>(
    part: &[u8],
    line: &mut Line,
    run: &mut Run,
    output: &mut W,
) -> io::Result<()> {
    let mut pieces = part.split(|byte| *byte == b'\n');
    line.extend(pieces.next().unwrap_or(&[]));
    for piece in pieces {
        run.carry_out(line, output)?;
        line.clear();
        line.extend(piece);
    }
    Ok(())
}
