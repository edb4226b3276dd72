//! Words of a listing.

ghost use Rattle.std.specs.Prelude.{◌≡◌};

use std::hash::{Hash, Hasher};
use std::marker::Model;

/// Bytes of the listing. Contracts see them as a list.
#[derive(Debug, Drop)]
pub struct Word<'a> {
    bytes: &'a [u8],
}

impl<'a> Model for Word<'a> {
    ghost use Rattle.std.specs.Prelude.{List, ℕ};

    ghost Value = { List ℕ };

    ghost view = { λ w. w.bytes.now };
}

impl<'a> Word<'a> {
    /// These bytes.
    pub fn new(bytes: &'a [u8]) -> Word<'a>
        ensures { result ≡ bytes.now }
    {
        Word { bytes }
    }

    /// The bytes.
    pub fn bytes(&self) -> &'a [u8]
        ensures { result.now ≡ self.now }
    {
        self.bytes
    }

    /// The same bytes.
    pub fn copy(&self) -> Word<'a>
        ensures { result ≡ self.now }
    {
        Word { bytes: self.bytes }
    }
}

impl PartialEq for Word<'_> {
    ghost use Rattle.std.specs.Prelude.{nat_eq};
    ghost use Rattle.std.specs.Cmp.Lexicographic.{pointwise, nat_list_eq_equiv};
    ghost use Rattle.std.specs.Cmp.{partial_equiv_from_equiv};

    ghost eq = { pointwise nat_eq };

    ghost laws = { partial_equiv_from_equiv nat_list_eq_equiv };

    fn eq(&self, other: &Self) -> bool {
        self.bytes == other.bytes
    }
}

impl Eq for Word<'_> {
    ghost use Rattle.std.specs.Cmp.Lexicographic.{nat_list_eq_equiv};

    ghost laws = { nat_list_eq_equiv };
}

impl Hash for Word<'_> {
    ghost use Rattle.std.specs.Hash as fed;
    ghost use Rattle.std.specs.Hash.{items_Alike};
    ghost use Rattle.std.proofs.Common.{rules};

    ghost hash_input = { fed.slice fed.u8 };

    ghost respects_eq = { Prim.search rules };

    fn hash<H: Hasher>(&self, state: &mut H) {
        self.bytes.hash(state);
    }
}

/// Words that stand side by side in a line. Contracts see them as a list of lists of bytes.
#[derive(Debug, Drop)]
pub struct Words<'a> {
    words: &'a [Word<'a>],
}

impl<'a> Model for Words<'a> {
    ghost use Rattle.std.specs.Prelude.{List, ℕ};

    ghost Value = { List (List ℕ) };

    ghost view = { λ w. w.words.now };
}

impl<'a> Words<'a> {
    /// These words.
    pub fn new(words: &'a [Word<'a>]) -> Words<'a>
        ensures { result ≡ words.now }
    {
        Words { words }
    }

    /// The words, in their order.
    pub fn as_slice(&self) -> &'a [Word<'a>]
        ensures { result.now ≡ self.now }
    {
        self.words
    }
}

/// The words of a line. Contracts see them as a list of lists of bytes.
#[derive(Debug, Drop)]
pub struct LineWords<'a> {
    words: Vec<Word<'a>>,
}

impl<'a> Model for LineWords<'a> {
    ghost use Rattle.std.specs.Prelude.{List, ℕ};

    ghost Value = { List (List ℕ) };

    ghost view = { λ w. w.words.items };
}

impl<'a> LineWords<'a> {
    /// These words.
    pub fn new(words: Vec<Word<'a>>) -> LineWords<'a>
        ensures { result ≡ words.entry.items }
    {
        LineWords { words }
    }

    /// The words, in their order.
    pub fn as_slice(&self) -> &[Word<'a>]
        ensures { result.now ≡ self.now }
    {
        &self.words
    }
}
