//! The check of a set.

ghost use Rattle.std.specs.Prelude.{◌≡◌, ◌<◌, ◌^◌, length, MatchResult};
ghost use Rattle.et_hierarchy.specs.Links.{links};
ghost use Rattle.et_hierarchy.specs.Faults.{IsFaultless};
ghost use Rattle.et_hierarchy.specs.Answers.{IsRefused};

use crate::index::{Indexed, index};
use crate::links::{Links, first_final, first_without, link_all};
use crate::search::first_on_cycle;
use crate::{ClassOutline, FaultKind, SetFault};
use std::alloc::Global;

/// The direct superclass and superinterfaces of each class, by place. `Ok` exactly where no class shows a fault;
/// otherwise the fault is the one of the least kind that any class shows, with the first class that shows it. Or there
/// was no memory.
pub fn check_set(alloc: Global, set: &[ClassOutline]) -> Result<Vec<Links>, SetFault>
    requires { length set.now < 2 ^ 32 }
    ensures { MatchResult result
        (λ table. IsFaultless set.now × (table.items ≡ links set.now)) (IsRefused set.now) }
{
    let places = match index(alloc, set)? {
        Indexed::Places(places) => places,
        Indexed::Repeated(class) => {
            return Err(SetFault::At {
                kind: FaultKind::Duplicate,
                class,
            });
        }
    };
    match first_without(set, &places) {
        Some(class) => {
            return Err(SetFault::At {
                kind: FaultKind::NoSuper,
                class,
            });
        }
        None => {}
    }
    let table = link_all(alloc, set, &places)?;
    match first_on_cycle(alloc, table.as_slice())? {
        Some(class) => {
            return Err(SetFault::At {
                kind: FaultKind::Cycle,
                class,
            });
        }
        None => {}
    }
    match first_final(set, &places) {
        Some(class) => {
            return Err(SetFault::At {
                kind: FaultKind::FinalSuper,
                class,
            });
        }
        None => {}
    }
    Ok(table)
}
