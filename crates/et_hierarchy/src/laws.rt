//! What the definitions mean.

ghost use Rattle.std.specs.Prelude.{◌≡◌, ℕ, ◌<◌, Bool, List, length, Some};
ghost use Rattle.std.specs.List.{slice_index_or};
ghost use Rattle.et_hierarchy.specs.Links.{LinkEntry, no_links, HasLinksWithin, IsAcyclic};
ghost use Rattle.et_hierarchy.specs.Ancestry.{Ancestry, IsAncestry};
ghost use Rattle.et_hierarchy.specs.Initialization.{OrderGoesOn};

/// The initialization order of a class that is no interface is that of its superclass, and then its interfaces and
/// itself (JVMS 5.5).
pub fn order_goes_on()
    ensures { (needs : ℕ → Bool) (table : List LinkEntry) (rows : List Ancestry) (k s : ℕ) →
        IsAncestry table rows → k < length table →
        (slice_index_or table k no_links).above ≡ Some s → OrderGoesOn needs table rows k s }
{}

/// The lists of superclasses and superinterfaces are determined by the direct ones, where no class is its own ancestor
/// (JVMS 5.3.5).
pub fn ancestries_are_one()
    ensures { (table : List LinkEntry) (rows others : List Ancestry) →
        HasLinksWithin (length table) table →
        IsAcyclic table → IsAncestry table rows → IsAncestry table others → rows ≡ others }
{}
