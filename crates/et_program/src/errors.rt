//! What resolution and selection throw.

use et_base::MethodId;

/// The class of the error that resolution or selection throws.
#[derive(Clone, Copy, Debug, PartialEq, Eq)]
pub enum LinkError {
    /// There is no class of that name (JVMS 5.3).
    NoClassDefFound,
    /// There is no such field (JVMS 5.4.3.2).
    NoSuchField,
    /// There is no such method (JVMS 5.4.3.3, 5.4.3.4).
    NoSuchMethod,
    /// A class stands where an interface is wanted, or the reverse; or no one method can be chosen.
    IncompatibleClassChange,
    /// The method that is chosen is abstract, or there is none.
    AbstractMethod,
}

/// The methods that are maximally specific and not abstract: none, one, or several.
#[derive(Clone, Copy)]
pub(crate) enum Specific {
    Nothing,
    One(MethodId),
    Several,
}

impl Specific {
    ghost use Rattle.std.specs.Prelude.{◌≡◌};
    ghost use Rattle.et_program.specs.Counted.{and_more};

    /// With one more, if there is one.
    pub fn and_more(self, method: Option<MethodId>) -> Self
        ensures { result ≡ and_more self method }
    {
        match (self, method) {
            (found, None) => found,
            (Specific::Nothing, Some(method)) => Specific::One(method),
            (_, Some(_)) => Specific::Several,
        }
    }
}
