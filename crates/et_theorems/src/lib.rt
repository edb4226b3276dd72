//! The theorems, on one page, which is `theorems`: what holds of every trace that words and files define, over one record of
//! premises. Beside it stand the laws on traces and on verified programs, of which no other crate makes use. The crate holds
//! laws alone: no body runs.
//!
//! - `traces/` of `specs/` and `proofs/`: what the traces of histories are. Each is a good list (`good_laws`), its live bytes
//!   are those that its run could still reach (`live_laws`), and what it tells of slots is what the states of the run hold
//!   (`snapshot_laws`).
//! - `typings/`: what a verified program promises of its runs. Each frame keeps to the typing of its method, and an event that
//!   has no meaning has none for the class of an object (`typed_laws`).
//!
//! The steps of an event, of which `et_history` tells, say how frames are entered and left, and what is written. They don't say
//! how the topmost frame became what it is, nor why an event has no meaning: both are told in kinds of operands, and the kinds
//! of each row stand with the verifier, above the steps. So a state is typed in two parts. What an event does to the other
//! threads and to objects is a fold of its steps. What it does to the frames of its own thread, and what refuses it, is shown
//! row by row, from the types that the row takes and gives.
#![tactic(auto)]

pub mod good_laws;
pub mod live_laws;
pub mod snapshot_laws;
pub mod theorems;
pub mod typed_laws;
