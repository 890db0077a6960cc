// Long histories of drawn calls, of all nine kinds: each call is carried out by `apply`, and in a second run
// by the call in place of its kind. Digests of all that follows from the calls are printed.
#![tactic(auto)]

use std::io;
use ways::{ByValue, InPlace};

mod answer_digest;
mod commands;
mod digest;
mod drawn_calls;
mod frames;
mod history;
mod numbers;
mod panels;
mod state_digest;
mod ways;
mod work_digest;

fn main(rt: HostRuntime) -> io::Result<()> {
    println!(rt; "by value")?;
    panels::run::<ByValue>(&rt)?;
    println!(rt; "in place")?;
    panels::run::<InPlace>(&rt)
}
