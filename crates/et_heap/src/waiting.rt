//! How the references change that wait in an object.
use et_base::ObjectId;
use et_ghost_list::Change;

/// Nothing changes.
#[derive(Drop)]
pub struct Unchanged {}

impl Change<ObjectId> for Unchanged {
    ghost after = { λ _ references. references };
}

/// A reference begins to wait, behind the others.
#[derive(Drop)]
pub struct Newcomer {
    pub reference: ObjectId,
}

impl Change<ObjectId> for Newcomer {
    ghost use Rattle.std.specs.Prelude.{[], ◌∷◌, ◌++◌};

    ghost after = { λ newcomer references. references ++ newcomer.reference ∷ [] };
}

/// The first reference waits no longer.
#[derive(Drop)]
pub struct FirstGone {}

impl Change<ObjectId> for FirstGone {
    ghost use Rattle.std.specs.Prelude.{drop};

    ghost after = { λ _ references. drop 1 references };
}
