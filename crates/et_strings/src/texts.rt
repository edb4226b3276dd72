//! The texts of objects.
ghost use Rattle.std.specs.Prelude.{◌≡◌, ℕ, ◌+◌, ◌≤◌, ◌^◌, [], List, OnOk, length};
ghost use Rattle.std.specs.Option.{option_map_or};
ghost use Rattle.et_state.specs.Texts.{given_text, no_texts, with_text, without_text, text_units};

use et_base::ObjectId;
use std::alloc::{AllocError, Global};
use std::collections::BTreeMap;
use std::marker::Model;

/// The texts that strings and string builders were given, in units of UTF-16, which stand beside a machine. A contract sees the
/// list of objects and texts, in the order of the objects.
#[derive(Drop)]
pub struct Texts {
    own: BTreeMap<u32, Vec<u16>>,
    units: u64,
}

impl Model for Texts {
    ghost use Rattle.std.specs.Prelude.{List, ℕ};

    ghost Value = { List (ℕ × List ℕ) };

    ghost use Rattle.et_strings.specs.TextsInside.{texts_in, IsStore};

    ghost view = { texts_in };

    ghost invariant = { IsStore };
}

impl Texts {
    /// No object has a text.
    pub fn begin(alloc: Global) -> Texts
        ensures { result ≡ no_texts }
    {
        Texts {
            own: BTreeMap::new(alloc),
            units: 0,
        }
    }

    /// The text of an object.
    pub(crate) fn get(&self, o: ObjectId) -> &[u16]
        ensures { result.now ≡ given_text self.now o }
    {
        match self.own.get(&o.number()) {
            Some(units) => units.as_slice(),
            None => &[],
        }
    }

    /// How many units all texts have together.
    pub(crate) fn units(&self) -> u64
        ensures value { result ≡ text_units self.now }
        ensures given { (o : ℕ) (text : List ℕ) →
            text_units (with_text o text self.now) + length (given_text self.now o)
            ≡ text_units self.now + length text }
    {
        self.units
    }

    /// Forgets the text of an object. It takes no memory.
    pub fn forget(&mut self, o: ObjectId)
        ensures { self.new ≡ without_text o self.old }
    {
        self.take(o);
    }

    /// Takes the text of an object out, for one that it is given then. It takes no memory.
    pub(crate) fn take(&mut self, o: ObjectId) -> Option<Vec<u16>>
        ensures value { option_map_or (λ units. units.items) result [] ≡ given_text self.old o }
        ensures left { self.new ≡ without_text o self.old }
        ensures given { (text : List ℕ) → with_text o text self.new ≡ with_text o text self.old }
        ensures units { text_units self.new ≤ text_units self.old }
    {
        match self.own.remove(&o.number()) {
            Some(units) => {
                self.units -= units.len() as u64;
                Some(units)
            }
            None => None,
        }
    }

    /// Gives an object a text, in the place of the one that it had. After an error the texts may only be dropped.
    pub(crate) fn set(&mut self, o: ObjectId, units: Vec<u16>) -> Result<(), AllocError>
        requires few { text_units self.old + length units.items ≤ 2 ^ 40 }
        ensures { OnOk result (self.new ≡ with_text o units.items self.old) }
    {
        let more = units.len() as u64;
        let old = self.own.insert(o.number(), units)?;
        self.units += more;
        if let Some(before) = old {
            self.units -= before.len() as u64;
        }
        Ok(())
    }
}
