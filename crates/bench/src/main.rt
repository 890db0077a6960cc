// The bench program of document 01: reads commands from standard input and runs each to its end.
#![tactic(auto)]

mod commands;
mod input;

use bench_lines::Lines;
use commands::run_line;
use fresh_panel::fresh;
use input::Input;
use line::Line;
use record::Record;
use slot_words::taken::taken_slots;
use std::io;
use std::io::{Read, Write};
use text_buffer::TextBuffer;
use whole_operations::{has_changes, with_changes};

// What is read and what is written goes in parts of this size.
const BUFFER: usize = 65536;

fn main(rt: HostRuntime) -> io::Result<()> {
    let mut slots = [0; 4096];
    let mut input = Input::new(rt.stdin());
    let mut lines = Lines {
        text: TextBuffer::new(),
    };
    bench(&mut input, &mut rt.stdout(), &mut lines, &mut slots)
}

fn bench<R: Read + Drop, W: Write>(
    input: &mut Input<R>,
    to: &mut W,
    lines: &mut Lines<BUFFER>,
    slots: &mut [u64],
) -> io::Result<()> {
    match begin(input, slots) {
        // a first line that is missing, unreadable or refused "ends the run"
        None => lines.panel_refused(),
        Some((panel, slots)) => {
            lines.panel(panel.m, panel.k);
            let reach = run_lines(input, to, lines, panel, slots)?;
            lines.make_room(to)?;
            lines.finish(reach, taken_slots(slots) as u64);
        }
    }
    lines.text.flush(to)
}

// The panel that line 1 asks for, and its slots; a number of slots above what there is, is refused.
fn begin<'a, R: Read + Drop>(
    input: &mut Input<R>,
    slots: &'a mut [u64],
) -> Option<(Record, &'a mut [u64])> {
    let sizes = input.next_line()?.sizes()?;
    let asked = slots.get_mut(..sizes.m as usize)?;
    let made = fresh(asked, sizes.m, sizes.k);
    made.answer.ok()?;
    Some((made.panel, asked))
}

// Every line behind the first, and the reach then. The record stays in this function, and a line alters it in
// place: a function that took and gave it for each line would copy it. Nothing says that the input ends, so the loop
// has a bound, which no run reaches.
fn run_lines<R: Read + Drop, W: Write>(
    input: &mut Input<R>,
    to: &mut W,
    lines: &mut Lines<BUFFER>,
    begun: Record,
    slots: &mut [u64],
) -> io::Result<u32> {
    let mut panel = begun;
    for number in 2..u64::MAX {
        let Some(line) = input.next_line() else {
            break;
        };
        let changes = run_line(to, lines, &panel, slots, line, number)?;
        if has_changes(changes, panel.reach) {
            panel = with_changes(panel, changes);
        }
    }
    Ok(panel.reach)
}
