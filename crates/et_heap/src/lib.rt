//! The objects of the guest, by their numbers.
//!
//! An object takes 64 bytes and 16 more for each of its slots. Objects stand in pages of 1,024 numbers. Of an object
//! that was taken out the 64 bytes stay, and no slot, as long as an object of its page is held or still to be made. Then
//! the page is given back, and 32 bytes of it stay.
#![tactic(auto)]

mod fault;
mod heap;
mod links;
mod monitor;
mod page;
mod place;
mod refs;
mod root_list;
mod store;
mod waiting;

pub use fault::MakeFault;
pub use heap::Heap;
pub use monitor::Monitor;
pub use page::PAGE_SIZE;
pub use place::value_of_reference;
pub use refs::Refs;
pub use root_list::RootList;
pub use store::{MOST_OBJECTS, MOST_SLOTS};

#[cfg(test)]
mod tests;
