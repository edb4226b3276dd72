//! The numbers that a trace gives, from 1 on, to the classes or the methods that it mentions.
ghost use Rattle.std.specs.Prelude.{◌≡◌, ◌==◌, ℕ, None, false, ◌+◌, ◌<◌, ◌++◌, ◌∷◌, [], length, vec_len, IfOk, OnOk, slice_index_or};
ghost use Rattle.std.specs.List.{list_any};
ghost use Rattle.et_loop.specs.Naming.{number_if_in};

use et_base::NoMemory;
use std::alloc::Global;
use std::marker::Model;

/// The classes or the methods that a trace mentioned so far, by their numbers in the program. A contract sees those numbers
/// in the order in which the trace gave its own.
#[derive(Drop)]
pub struct Mentioned {
    /// What was mentioned, in order.
    order: Vec<u32>,
    /// The number in the trace, at the number in the program.
    numbers: Vec<Option<u32>>,
}

impl Model for Mentioned {
    ghost use Rattle.std.specs.Prelude.{ℕ, List};
    ghost use Rattle.et_loop.specs.Naming.{AreNumbersOf};

    ghost Value = { List ℕ };

    ghost view = { λ m. m.order.items };

    ghost invariant = { λ m. AreNumbersOf m.order.items m.numbers.items };
}

/// The number of a place, from 1 on.
fn number_at(place: usize) -> Result<u32, NoMemory>
    ensures { IfOk result (λ n. n ≡ place + 1) }
{
    match u32::try_from(place) {
        Ok(n) if n < u32::MAX => Ok(n + 1),
        _ => Err(NoMemory),
    }
}

/// Makes places up to this one. What stands there stays, also after `NoMemory`, and a new place has no number.
fn make_places(numbers: &mut Vec<Option<u32>>, last: usize) -> Result<(), NoMemory>
    ensures long { OnOk result (last < vec_len numbers.new) }
    ensures kept { (x : ℕ) → slice_index_or numbers.new.items x None
        ≡ slice_index_or numbers.old.items x None }
{
    'places: while numbers.len() <= last {
        numbers.push(None)?;
    }
    Ok(())
}

impl Mentioned {
    /// Nothing was mentioned.
    pub fn begin(alloc: Global) -> Mentioned
        ensures { result ≡ [] }
    {
        Mentioned {
            order: Vec::new(alloc),
            numbers: Vec::new(alloc),
        }
    }

    /// The number that the trace gave to what has this number in the program, if it was mentioned.
    #[inline]
    pub fn number(&self, id: u32) -> Option<u32>
        ensures { result ≡ number_if_in self.now id }
    {
        match self.numbers.get(id as usize) {
            Some(number) => *number,
            None => None,
        }
    }

    /// Mentions what was not mentioned, and answers the number that the trace gives to it.
    pub fn add(&mut self, id: u32) -> Result<u32, NoMemory>
        requires { list_any (λ y. id == y) self.old ≡ false }
        ensures number { IfOk result (λ n. n ≡ length self.old + 1) }
        ensures mentions { OnOk result (self.new ≡ self.old ++ id ∷ []) }
    {
        let number = number_at(self.order.len())?;
        make_places(&mut self.numbers, id as usize)?;
        self.order.push(id)?;
        self.numbers[id as usize] = Some(number);
        Ok(number)
    }
}
