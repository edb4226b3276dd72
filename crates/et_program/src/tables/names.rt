//! Numbers by name.

ghost use Rattle.std.specs.Prelude.{◌≡◌, ℕ, List, if◌then◌else◌, None, Some, OnOk, OnErr};
ghost use Rattle.std.specs.Option.{option_or};
ghost use Rattle.std.specs.Str.{bytes_eq};
ghost use Rattle.et_program.specs.Indices.{number_of_name};

use et_base::NoMemory;
use std::alloc::Global;
use std::collections::BTreeMap;

/// The number of each name that was put in. The names are in order, so that one more takes a few comparisons, whatever they are.
/// `number_of_name` says what a contract sees of it.
#[derive(Drop)]
pub struct NameIndex {
    places: BTreeMap<Vec<u8>, u32>,
}

impl NameIndex {
    /// No name has a number yet.
    #[tactic(auto, unfolding(crate::specs::Indices::number_of_name))]
    pub fn begin(alloc: Global) -> Self
        ensures { (name : List ℕ) → number_of_name result name ≡ None }
    {
        NameIndex {
            places: BTreeMap::new(alloc),
        }
    }

    /// The number of a name.
    #[tactic(auto, unfolding(crate::specs::Indices::number_of_name))]
    pub fn find(&self, name: &[u8]) -> Option<u32>
        ensures { result ≡ number_of_name self.now name.now }
    {
        self.places.get(name).copied()
    }

    /// Gives a name a number, unless it has one. After `NoMemory` all is as before.
    #[tactic(auto, unfolding(crate::specs::Indices::number_of_name))]
    pub fn put(&mut self, alloc: Global, name: &[u8], number: u32) -> Result<(), NoMemory>
        ensures ok { OnOk result ((q : List ℕ) → number_of_name self.new q ≡ option_or
            (number_of_name self.old q) (if bytes_eq q name.now then Some number else None)) }
        ensures err { OnErr result ((q : List ℕ) → number_of_name self.new q ≡ number_of_name
            self.old q) }
    {
        if self.places.contains_key(name) {
            return Ok(());
        }
        let key = Vec::from_slice(alloc, name)?;
        self.places.insert(key, number)?;
        Ok(())
    }
}
