//! A run of the program in memory, for the tests of other crates: the words, the files, and what comes of them.
//! The calls of the program that these tests make stand here too.
#![tactic(auto)]

mod runs;

pub use et_top::{
    WordsFault, bench_run, elephant, run_elephant, run_process, run_without_memory, words,
};
pub use runs::{answer, is_answered, words_of};
