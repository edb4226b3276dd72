//! The types that the entries of a frame have (JVMS 4.10.1.2, of which the classes of references are left out), and what two
//! ways to an instruction have in common.

ghost use Rattle.std.specs.Prelude.{◌≡◌, ◌+◌, ◌<◌, ◌≤◌, ◌^◌, List, [], ◌∷◌, true, false, length, reverse, sum_by, Some, None, IfSome, IfNone, IfOk, OnOk, IsTrue, ◌↔◌};
ghost use Rattle.et_flow.specs.declared.types.EntryType.{EntryType as Entry};
ghost use Rattle.et_flow.specs.Types.{joined, rank, joined_lists, caught as caught_by, is_single};
ghost use Rattle.et_flow.specs.Stores.{with_free, holds as holds_kind, one_set, long_set, set_to, where_within};

use crate::locals::Locals;
use et_base::NoMemory;
use et_pool::Operand;
use std::alloc::Global;
use std::marker::Model;

/// The type of one entry of the operands or of the local variables.
#[derive(Clone, Copy, Debug, PartialEq, Eq)]
pub enum EntryType {
    /// Any value, or none.
    Free,
    /// An int.
    Int,
    /// The lower entry of a long.
    Long,
    /// The upper entry of a long.
    LongHigh,
    /// A reference to an object, or null.
    Reference,
}

impl EntryType {
    /// The least type that is above both.
    pub fn joined(self, other: EntryType) -> EntryType
        ensures { result ≡ joined self other }
    {
        match (self, other) {
            (EntryType::Int, EntryType::Int) => EntryType::Int,
            (EntryType::Long, EntryType::Long) => EntryType::Long,
            (EntryType::LongHigh, EntryType::LongHigh) => EntryType::LongHigh,
            (EntryType::Reference, EntryType::Reference) => EntryType::Reference,
            _ => EntryType::Free,
        }
    }

    /// Whether an entry of the type is a value by itself.
    #[inline(always)]
    pub fn is_single(self) -> bool
        ensures { result ≡ is_single self }
    {
        match self {
            EntryType::Int | EntryType::Reference => true,
            EntryType::Free | EntryType::Long | EntryType::LongHigh => false,
        }
    }

    /// Whether the type is no other than `other`.
    #[inline(always)]
    pub fn is(self, other: EntryType) -> bool
        ensures { IsTrue result ↔ (self ≡ other) }
    {
        self == other
    }
}

/// The types of the operands and of the local variables of a frame.
#[derive(Drop)]
pub struct Types {
    operands: Vec<EntryType>,
    locals: Locals,
}

impl Model for Types {
    ghost use Rattle.std.specs.Prelude.{reverse};
    ghost use Rattle.et_flow.specs.Types.{TypesOf};

    ghost Value = { TypesOf };

    ghost view = { λ t. record { operands = reverse t.operands.items; locals = t.locals } };
}

/// Lists of types are the same.
fn are_same(some: &[EntryType], others: &[EntryType]) -> bool
    ensures { IsTrue result ↔ (some.now ≡ others.now) }
{
    if some.len() != others.len() {
        return false;
    }
    for i in 0..some.len() {
        if !some[i].is(others[i]) {
            return false;
        }
    }
    true
}

impl Types {
    /// No operands, and no local variables.
    pub fn new(alloc: Global) -> Self
        ensures operands { result.operands ≡ [] }
        ensures locals { result.locals ≡ [] }
    {
        Types {
            operands: Vec::new(alloc),
            locals: Locals::new(alloc),
        }
    }

    /// Makes these types those with which a method begins: no operands, and so many local variables, of which the first are
    /// these.
    pub fn begin(&mut self, entries: &[EntryType], count: usize) -> Result<(), NoMemory>
        requires fits { length entries.now ≤ count }
        requires few { count < 2 ^ 16 }
        ensures operands { OnOk result (self.new.operands ≡ []) }
        ensures locals { OnOk result (self.new.locals ≡ with_free count entries.now) }
    {
        self.operands.clear();
        self.locals.begin(entries, count)
    }

    /// Whether the operands are the same, and the local variables as many.
    pub fn has_shape_of(&self, other: &Types) -> bool
        ensures { IsTrue result ↔ ((self.now.operands ≡ other.now.operands)
            × (length self.now.locals ≡ length other.now.locals)) }
    {
        self.locals.count() == other.locals.count()
            && are_same(self.operands.as_slice(), other.operands.as_slice())
    }

    /// Joins the local variables with others, and says whether one changed.
    pub fn join_locals(&mut self, other: &Types) -> bool
        requires { length self.old.locals ≡ length other.now.locals }
        ensures operands { self.new.operands ≡ self.old.operands }
        ensures joined { self.new.locals ≡ joined_lists self.old.locals other.now.locals }
        ensures same { result ≡ false → self.new ≡ self.old }
        ensures less { result ≡ true →
            sum_by rank self.new.locals < sum_by rank self.old.locals }
    {
        self.locals.join(&other.locals)
    }

    /// Takes the topmost entry of the operands, if there is one.
    #[inline(always)]
    pub fn pop(&mut self) -> Option<EntryType>
        ensures some { IfSome result (λ t. self.old.operands ≡ t ∷ self.new.operands) }
        ensures none { IfNone result (self.old.operands ≡ []) }
        ensures locals { self.new.locals ≡ self.old.locals }
    {
        self.operands.pop()
    }

    /// How many entries the operands have.
    #[inline(always)]
    pub fn depth(&self) -> usize
        ensures { result ≡ length self.now.operands }
    {
        self.operands.len()
    }

    /// Makes these types the same as others.
    pub fn copy_from(&mut self, other: &Types) -> Result<(), NoMemory>
        ensures { OnOk result (self.new ≡ other.now) }
    {
        self.operands.clear();
        if !other.operands.is_empty() {
            self.operands.extend_from_slice(&other.operands)?;
        }
        self.locals.copy_from(&other.locals)
    }

    /// Makes these types those with which a handler is entered: the exception, and the local variables as they are in others.
    pub fn copy_caught(&mut self, other: &Types) -> Result<(), NoMemory>
        ensures { OnOk result (self.new ≡ caught_by other.now) }
    {
        self.operands.clear();
        self.operands.push(EntryType::Reference)?;
        self.locals.copy_from(&other.locals)?;
        Ok(())
    }

    /// Takes the topmost entry of the operands, and says whether it was of a type.
    #[inline(always)]
    pub fn pop_entry(&mut self, entry: EntryType) -> bool
        ensures taken { result ≡ true → self.old.operands ≡ entry ∷ self.new.operands }
        ensures refused { (rest : List Entry) → result ≡ false →
            self.old.operands ≡ entry ∷ rest → ⊥ }
        ensures locals { self.new.locals ≡ self.old.locals }
    {
        match self.operands.pop() {
            Some(top) => top.is(entry),
            None => false,
        }
    }

    /// Whether a local variable holds a value of a kind.
    #[inline(always)]
    pub fn holds(&self, kind: Operand, i: usize) -> bool
        requires { i < 2 ^ 31 }
        ensures { result ≡ holds_kind kind self.now.locals i }
    {
        self.locals.holds(kind, i)
    }

    /// Writes a value of a kind to a local variable. `false` where there is none.
    #[inline(always)]
    pub fn set(&mut self, kind: Operand, i: usize) -> Result<bool, NoMemory>
        requires { i < 2 ^ 31 }
        ensures written { IfOk result (λ b. b ≡ true →
            set_to kind self.old.locals i ≡ Some self.new.locals) }
        ensures none { IfOk result (λ b. b ≡ false → set_to kind self.old.locals i ≡ None) }
        ensures operands { self.new.operands ≡ self.old.operands }
    {
        let done = match kind {
            Operand::Int => self.locals.set_one(i, EntryType::Int)?,
            Operand::Long => self.locals.set_long(i)?,
            Operand::Reference => self.locals.set_one(i, EntryType::Reference)?,
        };
        Ok(done)
    }

    /// Puts an entry on top of the operands.
    #[inline(always)]
    pub fn push_entry(&mut self, entry: EntryType) -> Result<(), NoMemory>
        ensures operands { OnOk result (self.new.operands ≡ entry ∷ self.old.operands) }
        ensures locals { OnOk result (self.new.locals ≡ self.old.locals) }
    {
        self.operands.push(entry)?;
        Ok(())
    }
}
