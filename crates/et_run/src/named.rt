//! The names of a linked program.
ghost use Rattle.std.specs.Prelude.{◌≡◌};
ghost use Rattle.et_history.specs.steps.Telling.{names_of_program};

use et_base::{ClassId, MethodId};
use et_loop::Program;
use et_program::Program as Linked;
use std::marker::Model;

/// A linked program, of which a trace names the classes and methods. A contract sees it as the program.
#[derive(Drop)]
pub struct NamedProgram<'a> {
    program: &'a Linked,
}

impl<'a> Model for NamedProgram<'a> {
    ghost use Rattle.et_program.specs.Entries.{Linked};

    ghost Value = { Linked };

    ghost view = { λ p. p.program.now };
}

impl<'a> NamedProgram<'a> {
    /// Of a program.
    pub fn of(program: &'a Linked) -> NamedProgram<'a>
        ensures { result ≡ program.now }
    {
        NamedProgram { program }
    }

    /// The program.
    pub fn program(&self) -> &Linked
        ensures { result.now ≡ self.now }
    {
        self.program
    }
}

// The calls of `is_linked` tell the prover that names are short, and do nothing.
impl<'a> Program for NamedProgram<'a> {
    ghost names = { names_of_program };

    fn class_name(&self, class: ClassId) -> &[u8] {
        self.program.is_linked();
        self.program.class(class).name.as_slice()
    }

    fn method_class(&self, method: MethodId) -> ClassId {
        self.program.method(method).class
    }

    fn method_name(&self, method: MethodId) -> &[u8] {
        self.program.is_linked();
        self.program.method(method).name.as_slice()
    }

    fn method_descriptor(&self, method: MethodId) -> &[u8] {
        self.program.is_linked();
        self.program.method(method).descriptor.as_slice()
    }
}
