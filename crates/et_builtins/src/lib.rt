//! The arguments of a call, what an invoke comes to, and the built-in methods without code, which take one event and no frame.
#![tactic(auto)]

mod arguments;
mod changes;
mod classes;
mod events;
mod kinds;
mod plans;
mod rows;

pub use arguments::{argument_at, receiver};
pub use changes::{Called, give, give_nothing};
pub use classes::{is_of, takes_text};
pub use events::built_in_method_event;
pub use plans::{Call, CallPlan, deferred_method, invoke_plan};
