//! A list of numbers.
ghost use Rattle.std.specs.Prelude.{◌≡◌, [], ◌∷◌};

use super::*;
use std::mem::size_of;
use std::test::Fail;

/// A number comes to stand before the others.
#[derive(Drop)]
struct Front {
    number: u32,
}

impl Change<u32> for Front {
    ghost use Rattle.std.specs.Prelude.{◌∷◌};

    ghost after = { λ front numbers. front.number ∷ numbers };
}

fn two_numbers() -> GhostList<u32>
    ensures { result.items ≡ 5 ∷ 3 ∷ [] }
{
    let none = GhostList::begin();
    let one = none.then(&Front { number: 3 });
    one.then(&Front { number: 5 })
}

#[test]
fn a_list_takes_no_memory(rt: HostRuntime) -> Result<(), Fail> {
    let _numbers = two_numbers();
    assert_eq!(rt; size_of::<GhostList<u32>>(), 0);
    Ok(())
}
