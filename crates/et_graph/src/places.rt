//! Where the entries of objects stand.

ghost use Rattle.std.specs.Prelude.{◌≡◌, ◌+◌, ◌<◌, ◌^◌};

use et_base::ObjectId;

/// The place of the object's entry, since objects are numbered from 1.
pub fn place_of(object: ObjectId) -> usize
    requires { 0 < object }
    ensures place { result + 1 ≡ object }
    ensures fits { result < 2 ^ 32 }
{
    object.number() as usize - 1
}
