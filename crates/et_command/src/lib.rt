//! What the words of a command line ask for: the command, with its options and operands.
#![tactic(auto)]

mod command;
mod numbers;
mod options;
mod split;

pub use command::{Command, Generations, Models, read_words};
