//! The types of local variables, as they are kept, read and written (JVMS 2.6.1).
ghost use Rattle.std.specs.Prelude.{◌≡◌, ◌+◌, ◌<◌, ◌≤◌, ◌^◌, [], true, false, length, sum_by, slice_set, Some, IfOk, IfErr, OnOk};
ghost use Rattle.et_flow.specs.Locals.{AreInOrder, IsAt, IsGapFor};
ghost use Rattle.et_flow.specs.Stores.{local_type, holds as holds_kind, without_lower as lower_gone, without_upper as upper_gone, one_set, long_set, where_within};
ghost use Rattle.et_flow.specs.Types.{joined_lists, rank};
ghost use Rattle.et_flow.specs.Stores.{with_free};

use crate::types::EntryType;
use et_base::NoMemory;
use et_pool::Operand;
use std::alloc::Global;
use std::marker::Model;

/// A local variable of which something was known, and its type.
#[derive(Clone, Copy)]
struct Held {
    local: u16,
    entry: EntryType,
}

/// The types of the local variables of a frame. Only those of which something was known take room, in the order of the local
/// variables; all others are free.
#[derive(Drop)]
pub(crate) struct Locals {
    count: usize,
    held: Vec<Held>,
}

impl Model for Locals {
    ghost use Rattle.std.specs.Prelude.{List};
    ghost use Rattle.et_flow.specs.declared.types.EntryType.{EntryType as Entry};
    ghost use Rattle.et_flow.specs.Locals.{spread, AreHeld};

    ghost Value = { List Entry };

    ghost view = { λ l. spread l.count l.held.items };

    ghost invariant = { λ l. AreHeld l.count l.held.items };
}

/// Where a local variable stands, or where it would, found by halving.
#[inline(never)]
fn search(held: &[Held], local: u16) -> Result<usize, usize>
    requires { AreInOrder held.now }
    ensures found { IfOk result (IsAt held.now local) }
    ensures absent { IfErr result (IsGapFor held.now local) }
{
    let mut low = 0;
    let mut high = held.len();
    if high == 0 || held[high - 1].local < local {
        return Err(high);
    }
    while low < high {
        let middle = low + (high - low) / 2;
        let found = held[middle].local;
        if found == local {
            return Ok(middle);
        }
        if found < local {
            low = middle + 1;
        } else {
            high = middle;
        }
    }
    Err(low)
}

/// The same. Where something is known of all local variables before it, it stands at its own place.
#[inline(always)]
fn place_of(held: &[Held], local: u16) -> Result<usize, usize>
    requires { AreInOrder held.now }
    ensures found { IfOk result (IsAt held.now local) }
    ensures absent { IfErr result (IsGapFor held.now local) }
{
    let guess = local as usize;
    if guess < held.len() && held[guess].local == local {
        return Ok(guess);
    }
    search(held, local)
}

impl Locals {
    /// There are no local variables.
    pub(crate) fn new(alloc: Global) -> Self
        ensures { result ≡ [] }
    {
        Locals {
            count: 0,
            held: Vec::new(alloc),
        }
    }

    /// Makes these types those of so many local variables, of which the first have these types, and the others are free.
    pub(crate) fn begin(&mut self, entries: &[EntryType], count: usize) -> Result<(), NoMemory>
        requires fits { length entries.now ≤ count }
        requires few { count < 2 ^ 16 }
        ensures { OnOk result (self.new ≡ with_free count entries.now) }
    {
        self.held.clear();
        self.count = count;
        for i in 0..entries.len() {
            self.held.push(Held {
                local: i as u16,
                entry: entries[i],
            })?;
        }
        Ok(())
    }

    /// Makes these types the same as others.
    pub(crate) fn copy_from(&mut self, others: &Locals) -> Result<(), NoMemory>
        ensures { OnOk result (self.new ≡ others.now) }
    {
        self.held.clear();
        self.count = others.count;
        self.held.extend_from_slice(&others.held)?;
        Ok(())
    }

    /// How many local variables there are.
    pub(crate) fn count(&self) -> usize
        ensures { result ≡ length self.now }
    {
        self.count
    }

    /// The type of a local variable; Free where there is none.
    #[inline(always)]
    fn type_at(&self, i: usize) -> EntryType
        ensures { result ≡ local_type self.now i }
    {
        if i >= self.count {
            return EntryType::Free;
        }
        match place_of(&self.held, i as u16) {
            Ok(at) => self.held[at].entry,
            Err(_) => EntryType::Free,
        }
    }

    /// A local variable gets a type.
    fn put(&mut self, i: usize, entry: EntryType) -> Result<(), NoMemory>
        requires { i < length self.old }
        ensures { OnOk result (self.new ≡ slice_set self.old i entry) }
    {
        match place_of(&self.held, i as u16) {
            Ok(at) => self.held[at].entry = entry,
            Err(at) => {
                let local = i as u16;
                self.held.insert(at, Held { local, entry })?;
            }
        }
        Ok(())
    }

    /// Joins the types with others, and says whether one changed.
    pub(crate) fn join(&mut self, others: &Locals) -> bool
        requires { length self.old ≡ length others.now }
        ensures joined { self.new ≡ joined_lists self.old others.now }
        ensures same { result ≡ false → self.new ≡ self.old }
        ensures less { result ≡ true → sum_by rank self.new < sum_by rank self.old }
    {
        let mut changed = false;
        for at in 0..self.held.len() {
            let held = self.held[at];
            let joined = held.entry.joined(others.type_at(held.local as usize));
            if !joined.is(held.entry) {
                self.held[at].entry = joined;
                changed = true;
            }
        }
        changed
    }

    /// Whether a local variable holds a value of a kind.
    #[inline(always)]
    pub(crate) fn holds(&self, kind: Operand, i: usize) -> bool
        requires { i < 2 ^ 32 }
        ensures { result ≡ holds_kind kind self.now i }
    {
        match kind {
            Operand::Int => self.type_at(i).is(EntryType::Int),
            Operand::Long => {
                self.type_at(i).is(EntryType::Long) && self.type_at(i + 1).is(EntryType::LongHigh)
            }
            Operand::Reference => self.type_at(i).is(EntryType::Reference),
        }
    }

    /// A long of which a local variable is the upper entry is one no more.
    fn without_lower(&mut self, i: usize) -> Result<(), NoMemory>
        ensures { OnOk result (self.new ≡ lower_gone i self.old) }
    {
        if i > 0 && self.type_at(i - 1).is(EntryType::Long) {
            self.put(i - 1, EntryType::Free)?;
        }
        Ok(())
    }

    /// A long of which a local variable is the lower entry is one no more.
    fn without_upper(&mut self, i: usize) -> Result<(), NoMemory>
        requires { i < 2 ^ 32 }
        ensures { OnOk result (self.new ≡ upper_gone i self.old) }
    {
        if self.type_at(i + 1).is(EntryType::LongHigh) {
            self.put(i + 1, EntryType::Free)?;
        }
        Ok(())
    }

    /// A local variable gets a type. `false` where there is none.
    pub(crate) fn set_one(&mut self, i: usize, entry: EntryType) -> Result<bool, NoMemory>
        requires { i < 2 ^ 31 }
        ensures written { IfOk result (λ b. b ≡ true →
            where_within i self.old (one_set i entry self.old) ≡ Some self.new) }
        ensures none { IfOk result (λ b. b ≡ false → length self.old ≤ i) }
    {
        if i >= self.count {
            return Ok(false);
        }
        self.without_lower(i)?;
        self.without_upper(i)?;
        self.put(i, entry)?;
        Ok(true)
    }

    /// Two local variables get the types of a long. `false` where there are none.
    pub(crate) fn set_long(&mut self, i: usize) -> Result<bool, NoMemory>
        requires { i < 2 ^ 31 }
        ensures written { IfOk result (λ b. b ≡ true →
            where_within (i + 1) self.old (long_set i self.old) ≡ Some self.new) }
        ensures none { IfOk result (λ b. b ≡ false → length self.old ≤ i + 1) }
    {
        if i + 1 >= self.count {
            return Ok(false);
        }
        self.without_lower(i)?;
        self.without_upper(i + 1)?;
        self.put(i, EntryType::Long)?;
        self.put(i + 1, EntryType::LongHigh)?;
        Ok(true)
    }
}
