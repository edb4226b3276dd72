//! A list that only proofs read. It takes no memory, and nothing is done for it at run time.
ghost use Rattle.std.specs.Prelude.{◌≡◌, List, []};
ghost use Rattle.std.specs.Borrow.{ftrue};
ghost use Rattle.std.specs.Coded.{coded_list};

use std::marker::{Model, PhantomData};

/// A change of a list.
pub trait Change<T> {
    /// The list that a list becomes by it.
    ghost after: { Self → List T → List T };
}

/// A list of what values stand for in contracts, in order. A clause reads it as `items`.
#[derive(Drop)]
pub struct GhostList<T> {
    of: PhantomData<T>,
    pub ghost items: { List T } by { coded_list T.code },
}

impl<T> Model for GhostList<T> {
    ghost also_owns = { λ _. ftrue };
}

impl<T> GhostList<T> {
    /// The empty list.
    pub fn begin() -> GhostList<T>
        ensures { result.items ≡ [] }
    {
        GhostList { of: PhantomData }
    }

    /// The list after a change.
    #[inline(always)]
    pub fn then<C: Change<T>>(&self, _change: &C) -> GhostList<T>
        ensures { result.items ≡ C.after _change.now self.now.items }
    {
        GhostList { of: PhantomData }
    }
}
