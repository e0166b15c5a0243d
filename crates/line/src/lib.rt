// Job lines: what the bytes of a line say, and the line that is printed.
#![tactic(auto)]

mod commands;
mod printing;
mod readings;

pub use commands::{Command, DEALER, MASKS};
pub use printing::{print_line, put_field};
pub use readings::{Fields, Reading, Taken, take_line};
