//! Tests of the public calls of the crates: each that can want memory once with ample memory, and tables of values that were
//! worked out by hand.
#![tactic(auto)]

#[cfg(test)]
mod class_files;
#[cfg(test)]
mod classes;
#[cfg(test)]
mod code;
#[cfg(test)]
mod curves;
#[cfg(test)]
mod flushes;
#[cfg(test)]
mod graphs;
#[cfg(test)]
mod lines;
#[cfg(test)]
mod link_files;
#[cfg(test)]
mod links;
#[cfg(test)]
mod listings;
#[cfg(test)]
mod machines;
#[cfg(test)]
mod models;
#[cfg(test)]
mod packs;
#[cfg(test)]
mod pools;
#[cfg(test)]
mod round_trip;
#[cfg(test)]
mod timelines;
#[cfg(test)]
mod traces;
