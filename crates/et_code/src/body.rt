//! The code of a method.

use std::alloc::AllocError;
use std::marker::Model;

/// A row of an exception table (JVMS 4.7.3). `start`, `end` and `handler` are places in the code,
/// `catch` is an index into the constant pool or 0.
#[derive(Clone, Copy, Debug, PartialEq, Eq)]
pub struct TableRow {
    /// The first place at which the handler is active.
    pub start: u16,
    /// The place behind the last one at which it is.
    pub end: u16,
    /// The place at which the handler begins.
    pub handler: u16,
    /// The class of exceptions that it catches, or 0 where it catches all.
    pub catch: u16,
}

/// The items of a `Code` attribute (JVMS 4.7.3) without its attributes, as they were read.
#[derive(Debug, Drop)]
pub struct RawCode {
    /// The most entries that the operand stack may have.
    pub max_stack: u16,
    /// The number of entries of local variables.
    pub max_locals: u16,
    /// The bytes of the instructions.
    pub code: Vec<u8>,
    /// The exception table, in the order of the search for a handler.
    pub table: Vec<TableRow>,
}

/// Code that keeps the rules which [`check_code`](crate::check_code) decides. Contracts see it as
/// its items.
#[derive(Debug, Drop)]
pub struct Code {
    raw: RawCode,
}

impl Model for Code {
    ghost use Rattle.et_code.specs.Bodies.{Body, body_of};
    ghost use Rattle.et_code.specs.Rules.{KeepsRules};

    ghost Value = { Body };

    ghost view = { λ c. body_of c.raw };

    ghost invariant = { λ c. KeepsRules (body_of c.raw) };
}

impl Code {
    ghost use Rattle.std.specs.Prelude.{◌≡◌, ◌<◌, ◌^◌, length};
    ghost use Rattle.et_code.specs.Bodies.{body_of};
    ghost use Rattle.et_code.specs.Rules.{KeepsRules};

    /// The code of these items, which keep the rules.
    pub(crate) fn new(raw: RawCode) -> Code
        requires { KeepsRules (body_of raw) }
        ensures { result ≡ body_of raw }
    {
        Code { raw }
    }

    /// The items of the code.
    #[tactic(auto, using(crate::proofs::Keeping::few_bytes))]
    pub fn raw(&self) -> &RawCode
        ensures items { body_of result.now ≡ self.now }
        ensures kept { KeepsRules self.now }
        ensures few { length self.now.code < 2 ^ 16 }
        ensures locals { self.now.max_locals < 2 ^ 16 }
    {
        // A number that is read is known to fit its type.
        let _locals = self.raw.max_locals;
        &self.raw
    }
}

/// Why code is refused.
#[derive(Clone, Copy, Debug, PartialEq, Eq)]
pub enum CheckFault {
    /// A rule is broken. The kind is [`CODE`] or [`UNSUPPORTED`]. The place is that of the item
    /// which breaks it, in bytes from the beginning of `code_length`, so that the code begins at 4.
    At {
        /// The kind of the rule.
        kind: u8,
        /// The place of the item.
        place: usize,
    },
    /// Memory ran out.
    NoMemory,
}

/// The kind of the rules of the standard on code.
pub const CODE: u8 = 8;

/// The kind of the rules that keep code in the profile: no instruction that it leaves out, no
/// constant and no array of a type that it leaves out.
pub const UNSUPPORTED: u8 = 9;

impl From<AllocError> for CheckFault {
    ghost use Rattle.std.specs.Prelude.{◌≡◌};
    ghost use Rattle.et_code.specs.declared.body.CheckFault.TheVariants.{NoMemory};

    ghost from_gives = { λ _ fault. fault ≡ NoMemory };

    fn from(_: AllocError) -> Self {
        CheckFault::NoMemory
    }
}
