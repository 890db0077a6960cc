// Single calls at work, for a benchmark from outside. Each line of standard input, of at most 24, asks for some:
// R readers' steps, all readers at work; W the writer's steps; L starts of lookups; T turns, all parties at work;
// O turns, one reader at work; S that reader's steps. V by value or P in place, which turns always are; S 16 or L
// 4096 slots; and a digit, for 10 to that power runs. Prints for each line the calls made and a sum of what they
// answered.
#![tactic(auto)]

ghost use Rattle.std.specs.Prelude.{◌^◌, ◌<◌};

mod panels;
mod runs;
mod sums;
mod ways;

use runs::{Work, made};
use std::io;
use std::io::Read;
use ways::{ByValue, InPlace};

fn main(rt: HostRuntime) -> io::Result<()> {
    let mut input = rt.stdin();
    for _ in 0..24 {
        let mut line = [0u8; 5];
        let length = read_full(&mut input, &mut line);
        if length < 4 {
            return Ok(());
        }
        measure(&rt, line)?;
    }
    Ok(())
}

// Reads until the buffer is full, or the input has ended or fails, and gives how many bytes were read.
fn read_full<R: Read>(from: &mut R, bytes: &mut [u8]) -> usize {
    let mut filled = 0;
    while filled < bytes.len() {
        match from.read(&mut bytes[filled..]) {
            Ok(0) | Err(_) => break,
            Ok(count) => filled += count,
        }
    }
    filled
}

fn measure(rt: &impl Print, [work, way, size, digit, _]: [u8; 5]) -> io::Result<()> {
    let work = Work::from(work);
    let times = power_of_ten(digit);
    match size {
        b'L' => sized::<4096>(rt, work, way, times),
        _ => sized::<16>(rt, work, way, times),
    }
}

fn power_of_ten(digit: u8) -> u32 {
    match digit {
        b'1'..=b'8' => 10u32.pow(u32::from(digit - b'0')),
        _ => 1,
    }
}

fn sized<const M: usize>(rt: &impl Print, work: Work, way: u8, times: u32) -> io::Result<()>
    requires { M < 2 ^ 32 }
{
    let m = M as u32;
    let mut slots = [0u64; M];
    panels::fill(&mut slots, m);
    let tally = match way {
        b'P' => made::<InPlace>(work, m, &mut slots, times),
        _ => made::<ByValue>(work, m, &mut slots, times),
    };
    println!(rt; "{} {}", tally.calls, tally.sum)
}
