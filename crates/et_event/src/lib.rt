//! The one table of events: what each instruction and each other turn of a thread does to the state of the guest. The
//! definitions are in `specs/`, beginning with `Event.antt`.
//!
//! The code has the row of each opcode (`table`, `rows`), and what the rows share: the instruction at which a thread stands
//! (`places`, `sites`), what an instruction names in the pool (`members`), operands that are read, taken and put (`tops`,
//! `operands`), how large objects are (`objects`), objects that are made and slots that are written, with their records
//! (`telling`), monitors (`locks`, `monitors`), and exceptions that the machine throws (`throws`). Two modules are laws,
//! functions with empty bodies: `place_laws` says what the event is of a turn in which an instruction is done, and
//! `monitor_laws` what the calls on monitors come to in the middle of an event.
#![tactic(auto)]

mod answers;
mod codes;
mod errors;
mod families;
mod locks;
mod members;
pub mod monitor_laws;
mod monitors;
mod objects;
mod operands;
pub mod place_laws;
mod places;
mod rows;
mod sites;
mod table;
mod telling;
mod throws;
mod tops;

pub use answers::{ill_typed, wait_event};
pub use codes::{code_of, method_of};
pub use errors::GuestError;
pub use et_class::Operand;
pub use families::Family;
pub use locks::{Lock, lock_for, lock_in};
pub use members::{class_operand, index_of, member_at};
pub use monitors::{
    enter_monitor, enter_some, leave_monitor, leave_some, may_enter, may_enter_some, owns,
    owns_some,
};
pub use objects::{class_called, slots_of};
pub use operands::{give, put, take};
pub use places::{Place, place_of};
pub use rows::{
    Arithmetic, CallKind, CallRow, Comparison, Condition, Conversion, Division, Elements, FrameRow,
    HeapRow, Local, MonitorRow, Number, Rearrangement, Row, Shift,
};
pub use sites::Site;
pub use table::{row_behind, row_of};
pub use telling::{add_array, add_instance, make_array, make_instance, tell_instance, tell_update};
pub use throws::throw_error;
pub use tops::{int_at, long_at, operand_at, reference_at};
