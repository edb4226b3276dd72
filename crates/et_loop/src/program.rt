//! The names of a program.
ghost use Rattle.std.specs.Prelude.{◌≡◌, ◌<◌};
ghost use Rattle.et_state.specs.Naming.{Names};
ghost use Rattle.et_text.specs.Ranges.{IsShort};

use et_base::{ClassId, MethodId};

/// A program, as far as a trace names its classes and methods. Each name and descriptor has fewer than 2^32 bytes.
pub trait Program {
    /// The names.
    ghost names: { Self → Names };

    /// The name of a class.
    fn class_name(&self, class: ClassId) -> &[u8]
        requires { class < (names self.now).class_count }
        ensures name { result.now ≡ (names self.now).class_name class }
        ensures short { IsShort result.now };

    /// The class that declares a method.
    fn method_class(&self, method: MethodId) -> ClassId
        requires { method < (names self.now).method_count }
        ensures { result ≡ (names self.now).method_class method };

    /// The name of a method.
    fn method_name(&self, method: MethodId) -> &[u8]
        requires { method < (names self.now).method_count }
        ensures name { result.now ≡ (names self.now).method_name method }
        ensures short { IsShort result.now };

    /// The descriptor of a method.
    fn method_descriptor(&self, method: MethodId) -> &[u8]
        requires { method < (names self.now).method_count }
        ensures name { result.now ≡ (names self.now).method_descriptor method }
        ensures short { IsShort result.now };
}
