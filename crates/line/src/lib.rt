// A line of the bench program's input, read out of a buffer into a state of fixed size, since a line may
// have any length. The line end is no byte of it.
#![tactic(auto)]

mod commands;
mod field;
mod part;
mod run;
mod sizes;
mod state;

pub use commands::{CommandLine, PutLine};
pub use field::{Digits, Field};
pub use part::{Part, part_of};
pub use sizes::Sizes;
pub use state::{Fields, Line};
