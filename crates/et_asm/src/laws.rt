//! What the definitions mean.

ghost use Rattle.et_asm.specs.Laws.{PoolsAreSets, IndicesName, PlacesCount, CodeGoesOn, AnswersAreOne, ClassesHaveListings};
ghost use Rattle.et_asm.specs.Spelled.{PoolsAreSpelled, PoolsFind};

/// The constant pool of any lines has each entry that they use, with its parts, exactly once, and
/// no other entry.
pub fn pools_are_sets()
    ensures { PoolsAreSets }
{}

/// The index of an entry of a pool is one more than the number of indices that the entries before
/// it take.
pub fn indices_name_entries()
    ensures { IndicesName }
{}

/// The place behind lines of a body is the number of bytes of their code, whatever the labels
/// stand for, and there the bytes of the lines behind begin.
pub fn places_are_true()
    ensures places { PlacesCount }
    ensures begins { CodeGoesOn }
{}

/// Each text has exactly one answer: no line is faulty, or one line and kind are the first.
pub fn exactly_one()
    ensures { AnswersAreOne }
{}

/// The bytes of a pool are those of what stands at its indices, as the class file format spells
/// them, and at the index of an entry of the pool stands that entry: a text, or the class or the
/// string of a text, is found there by its bytes.
pub fn pools_are_spelled()
    ensures bytes { PoolsAreSpelled }
    ensures entries { PoolsFind }
{}

/// Where no line of a text is faulty and the class file definition accepts the bytes, the class
/// says what the listing says: it has the listing's names, descriptors, flags, constants and code.
pub fn classes_have_listings()
    ensures { ClassesHaveListings }
{}
