//! The listing of the large program that `bench` runs, and the summary of its trace.
#![tactic(auto)]

mod listing;
mod totals;

pub use listing::bench_listing;
pub use totals::bench_summary;
