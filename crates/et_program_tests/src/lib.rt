//! Whole runs of programs in memory, as tests: each gives the class files, and says the trace or what is printed, and the line
//! of a refusal.
#![tactic(auto)]

#[cfg(test)]
mod arrays;
#[cfg(test)]
mod checks;
#[cfg(test)]
mod errors;
#[cfg(test)]
mod examples;
#[cfg(test)]
mod faults;
#[cfg(test)]
mod prints;
#[cfg(test)]
mod programs;
#[cfg(test)]
mod queue_refusals;
#[cfg(test)]
mod queues;
#[cfg(test)]
mod schedules;
#[cfg(test)]
mod traces;
