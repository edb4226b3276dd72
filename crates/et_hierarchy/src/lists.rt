//! Lists of classes that share their memory.

ghost use Rattle.std.specs.Prelude.{◌≡◌, ℕ, ◌≤◌, ◌==◌, [], drop, take, length, IfOk};
ghost use Rattle.std.specs.List.{slice_index_or};

use et_base::ClassId;
use std::alloc::{AllocError, Global};
use std::marker::Model;
use std::rc::RcSlice;

/// A list of classes. Its first classes, what stands behind these, and each further handle to it are in the same memory.
#[derive(Drop)]
pub struct ClassList {
    whole: RcSlice<ClassId>,
    from: usize,
    to: usize,
}

impl Model for ClassList {
    ghost use Rattle.std.specs.Prelude.{ℕ, ◌≤◌, ◌-◌, List, drop, take, length};
    ghost use Rattle.std.specs.Rc.{rc_slice_items};

    ghost Value = { List ℕ };

    ghost view = { λ l. take (l.to - l.from) (drop l.from (rc_slice_items l.whole)) };

    ghost invariant = { λ l. (l.from ≤ l.to) × (l.to ≤ length (rc_slice_items l.whole)) };
}

impl ClassList {
    /// The list of these classes. The only error is want of memory.
    pub fn of(classes: Vec<ClassId>) -> Result<Self, AllocError>
        ensures { IfOk result (λ l. l ≡ classes.items) }
    {
        let whole = RcSlice::from_vec(classes)?;
        let to = whole.len();
        Ok(ClassList { whole, from: 0, to })
    }

    /// A further handle to the list. The only error is that there are too many of them.
    pub fn share(&self) -> Result<Self, AllocError>
        ensures { IfOk result (λ l. l ≡ self.now) }
    {
        let whole = self.whole.clone()?;
        Ok(ClassList {
            whole,
            from: self.from,
            to: self.to,
        })
    }

    /// So many of the first classes. The only error is that there are too many handles to the list.
    pub fn first(&self, count: usize) -> Result<Self, AllocError>
        requires { count ≤ length self.now }
        ensures { IfOk result (λ l. l ≡ take count self.now) }
    {
        let whole = self.whole.clone()?;
        Ok(ClassList {
            whole,
            from: self.from,
            to: self.from + count,
        })
    }

    /// What is behind so many of the first classes. The only error is that there are too many handles to the list.
    pub fn behind(&self, count: usize) -> Result<Self, AllocError>
        requires { count ≤ length self.now }
        ensures { IfOk result (λ l. l ≡ drop count self.now) }
    {
        let whole = self.whole.clone()?;
        Ok(ClassList {
            whole,
            from: self.from + count,
            to: self.to,
        })
    }

    /// Whether it has no class.
    pub fn is_empty(&self) -> bool
        ensures { result ≡ (length self.now == 0) }
    {
        self.from == self.to
    }

    /// The classes.
    pub fn as_slice(&self) -> &[ClassId]
        ensures { result.now ≡ self.now }
    {
        &self.whole.as_slice()[self.from..self.to]
    }
}

/// The numbers of these classes.
pub(crate) fn numbers_of(alloc: Global, classes: &[ClassId]) -> Result<Vec<u32>, AllocError>
    ensures { IfOk result (λ numbers. numbers.items ≡ classes.now) }
{
    let mut numbers = Vec::with_capacity(alloc, classes.len())?;
    for class in classes {
        numbers.push(class.number())?;
    }
    Ok(numbers)
}

/// As many empty lists.
pub(crate) fn empty_lists(alloc: Global, count: usize) -> Result<Vec<ClassList>, AllocError>
    ensures length { IfOk result (λ lists. length lists.items ≡ count) }
    ensures none { IfOk result (λ lists. (k : ℕ) → slice_index_or lists.items k [] ≡ []) }
{
    let nothing = ClassList::of(Vec::new(alloc))?;
    let mut lists = Vec::with_capacity(alloc, count)?;
    for _ in 0..count {
        lists.push(nothing.share()?)?;
    }
    Ok(lists)
}
