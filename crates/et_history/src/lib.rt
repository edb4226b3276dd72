//! What holds of each event of the table, of each linked program, and of the histories of programs. All of it are laws:
//! functions with empty bodies, whose contracts say what holds of the definitions. The definitions and lemmas of one subject
//! stand in a folder of `specs/` and of `proofs/`.
//!
//! - `soundness/`: each word of the table that changes a state keeps the states of a program sound, and so does each event,
//!   which is made of such words (`sound_laws`).
//! - `steps/`: of which steps each event is made, told once for the whole table; and what follows for each event from what
//!   holds of each step: its records, what it writes, and what it does to monitors (`event_laws`).
//! - `texts/`: the same of each event of a state with texts: an event of the table as it is with texts beside it, a row of a
//!   method of texts, and the reading of System.out (`spoken_laws`).
//! - `programs/`: what every linked program has that its run asks (JVMS 5.3, 5.5), that its first state is sound, and that a
//!   flush leaves a sound state (`program_laws`, `start_laws`).
//!
//! What stands in no folder is of the histories: no two threads hold one monitor, nothing is freed, and what a machine keeps
//! tells the same (`laws`); what is made is reached then, and the deaths of a flush are exact (`object_laws`); what records
//! tell of objects and of slots is what stands there (`record_laws`, `slot_laws`); a flush keeps texts sound (`text_laws`); each
//! history ends (`run_laws`); and a reference waits in one queue at most (`waiting_laws`).
#![tactic(auto)]

pub mod event_laws;
pub mod laws;
pub mod object_laws;
pub mod program_laws;
pub mod record_laws;
pub mod run_laws;
pub mod slot_laws;
pub mod sound_laws;
pub mod spoken_laws;
pub mod start_laws;
pub mod text_laws;
pub mod waiting_laws;
