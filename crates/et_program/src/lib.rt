//! The linked program: its classes, methods and fields by number, and what resolution, selection, the type test and
//! the order of initialization answer (JVMS 5.4, 5.5, 6.5).
#![tactic(auto)]

mod errors;
mod fault;
mod info;
mod kind;
pub mod laws;
mod lookup;
mod program;
mod shapes;
mod signatures;
mod tables;

pub use errors::LinkError;
pub use et_boot::{BuiltIn, BuiltInClass, Shown, TextMethod, boot_count};
pub use fault::LinkFaultKind;
pub use info::{ClassInfo, Element, FieldInfo, MethodInfo};
pub use kind::{Kind, Leaf};
pub use lookup::referring::{MemberAt, NamedMethod, Referred, member_at};
pub use program::Program;
pub use tables::Tables;
pub use tables::class::{Above, Class};
pub use tables::method_index::MethodIndex;
pub use tables::names::NameIndex;
