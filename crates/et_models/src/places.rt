//! Where objects are.
ghost use Rattle.std.specs.Prelude.{◌≡◌};
ghost use Rattle.et_models.specs.Places.{place_at, with_place};

/// Where an object is.
#[derive(Clone, Copy, Debug, PartialEq, Eq)]
pub enum Place {
    /// In no space.
    Nowhere,
    /// In the nursery.
    Nursery,
    /// In the nursery, and a minor collection found that it stays.
    Kept,
    /// In the old space.
    Old,
}

impl Place {
    ghost use Rattle.std.specs.Prelude.{◌≡◌};
    ghost use Rattle.et_models.specs.Places.{place_settled};

    /// Where an object is after a minor collection.
    pub fn settled(self) -> Place
        ensures { result ≡ place_settled self }
    {
        match self {
            Place::Kept | Place::Old => Place::Old,
            Place::Nowhere | Place::Nursery => Place::Nowhere,
        }
    }
}

/// The place of the object.
pub fn place_at(places: &[Place], object: u32) -> Place
    ensures { result ≡ place_at places.now object }
{
    places
        .get(object as usize)
        .copied()
        .unwrap_or(Place::Nowhere)
}

/// Sets the place of the object, where it has an entry.
pub fn set_place(places: &mut [Place], object: u32, place: Place)
    ensures { places.new ≡ with_place places.old object place }
{
    if (object as usize) < places.len() {
        places[object as usize] = place;
    }
}
