// The second, test program of document 01: outside vectors, run through the proved functions. It shows
// what no history leads to and what no host test sees: records and slots made by hand, slices of another
// length than m, the generator's published check.
#![tactic(auto)]

mod disabled;
mod fresh;
mod list;
mod operations;
mod ranges;
mod readers;
mod shown;
mod unreached;
mod writer_refusals;

use refusal::Refusal;
use std::io;

fn main(rt: HostRuntime) -> io::Result<()> {
    run(&rt)
}

fn run(rt: &impl Print) -> io::Result<()> {
    // The published check z(10000).
    println!(rt; "z 10000 {}", hash::generated(10000))?;
    // The one word of the refusal table that no call of a history is refused with.
    println!(rt; "refusal {}", Refusal::Short)?;
    fresh::run(rt)?;
    readers::run(rt)?;
    ranges::run(rt)?;
    disabled::run(rt)?;
    writer_refusals::run(rt)?;
    unreached::run(rt)?;
    list::run(rt)
}
