//! The type test of checkcast, instanceof and aastore (JVMS 6.5).

ghost use Rattle.std.specs.Prelude.{◌≡◌, ◌<◌, length};
ghost use Rattle.et_program.specs.Tables.{IsLeafBelow};
ghost use Rattle.et_program.specs.Types.{leaf_passes, is_array_class, is_top, kind_passes, passes};

use crate::kind::{Kind, Leaf};
use crate::program::Program;
use et_base::ClassId;

/// Whether every array is of the class of this name (JVMS 6.5, checkcast).
fn is_class_of_arrays(name: &[u8]) -> bool
    ensures { result ≡ is_array_class name.now }
{
    name == b"java/lang/Object".as_slice()
        || name == b"java/lang/Cloneable".as_slice()
        || name == b"java/io/Serializable".as_slice()
}

impl Program {
    fn is_top(&self, leaf: Leaf) -> bool
        requires { IsLeafBelow (length self.now.classes) leaf }
        ensures { result ≡ is_top self.now leaf }
    {
        match leaf {
            Leaf::Base(_) => false,
            Leaf::Class(class) => is_class_of_arrays(self.class(class).name.as_slice()),
        }
    }

    fn leaf_passes(&self, low: Leaf, high: Leaf) -> bool
        requires { IsLeafBelow (length self.now.classes) low }
        ensures { result ≡ leaf_passes self.now low high }
    {
        match low {
            Leaf::Base(a) => match high {
                Leaf::Base(b) => a == b,
                Leaf::Class(_) => false,
            },
            Leaf::Class(a) => match high {
                Leaf::Base(_) => false,
                Leaf::Class(b) => self.is_subclass(a, b),
            },
        }
    }

    fn kind_passes(&self, low: Kind, high: Kind) -> bool
        requires low { IsLeafBelow (length self.now.classes) low.leaf }
        requires high { IsLeafBelow (length self.now.classes) high.leaf }
        ensures { result ≡ kind_passes self.now low high }
    {
        if low.dimensions == high.dimensions {
            self.leaf_passes(low.leaf, high.leaf)
        } else if high.dimensions < low.dimensions {
            self.is_top(high.leaf)
        } else {
            false
        }
    }

    /// Whether a reference to an object of the one class passes for one of the other: where it is that class or has
    /// it as a superclass or superinterface, and for arrays by their elements (JVMS 6.5, checkcast).
    pub fn passes(&self, low: ClassId, high: ClassId) -> bool
        requires low { low < length self.now.classes }
        requires high { high < length self.now.classes }
        ensures { result ≡ passes self.now low high }
    {
        self.kind_passes(self.entry(low).kind(), self.entry(high).kind())
    }
}
