//! The command line in memory, as tests: each gives the words and the files, and says the answer, the output and the line of a
//! refusal.
#![tactic(auto)]

#[cfg(test)]
mod bench;
#[cfg(test)]
mod boxes;
#[cfg(test)]
mod commands;
#[cfg(test)]
mod conversions;
#[cfg(test)]
mod first_path;
#[cfg(test)]
mod linking;
#[cfg(test)]
mod process;
#[cfg(test)]
mod refusals;
#[cfg(test)]
mod rows;
#[cfg(test)]
mod verdicts;
#[cfg(test)]
mod words;
