//! The built-in classes.

ghost use Rattle.std.specs.Prelude.{◌≡◌, ◌<◌, length};
ghost use Rattle.std.specs.List.{slice_index_or};
ghost use Rattle.et_boot.specs.Classes.{no_boot_class};
ghost use Rattle.et_boot.specs.Shown.{shown};
ghost use Rattle.et_program.specs.Files.{boots};

use et_boot::{BootClass, boot_class, boot_count};

/// How many built-in classes there are.
pub(crate) fn boots() -> usize
    ensures count { result ≡ length boots }
    ensures few { result < 100 }
{
    boot_count()
}

/// The built-in class at a place.
pub(crate) fn boot(i: usize) -> BootClass
    requires { i < length boots }
    ensures { shown result ≡ slice_index_or boots i no_boot_class }
{
    boot_class(i)
}
