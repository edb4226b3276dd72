//! Linking: class files with the built-in classes make a program, or there is a fault (JVMS 5.3, 5.4).
#![tactic(auto)]

mod fault;
pub mod laws;
mod linking;
mod members;
mod names;
mod refusal;

pub use et_program::{
    ClassInfo, Element, FieldInfo, LinkError, LinkFaultKind, MethodInfo, Program,
};
pub use fault::LinkFault;
pub use linking::link;
