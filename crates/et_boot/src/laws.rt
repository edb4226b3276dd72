//! What is true of the whole table.

ghost use Rattle.std.specs.Prelude.{All, IsTrue, []};
ghost use Rattle.std.specs.List.{list_all};
ghost use Rattle.et_boot.specs.Classes.{boot_classes};
ghost use Rattle.et_boot.specs.Facts.{are_distinct, are_in_order, defers_exactly, has_text_methods_exactly, is_declared};
ghost use Rattle.et_boot.specs.Pools.{HasPool};
ghost use Rattle.et_boot.specs.TextMethods.{text_methods};

/// No two built-in classes share a name.
pub fn names_differ()
    ensures { IsTrue (are_distinct boot_classes) }
{}

/// Each built-in class stands behind its superclass, which is no interface, and behind its superinterfaces, which
/// are interfaces.
pub fn classes_are_in_order()
    ensures { IsTrue (are_in_order [] boot_classes) }
{}

/// The deferred methods are exactly those without code of Thread, Reference, WeakReference and ReferenceQueue, and of String,
/// StringBuilder and PrintStream.
pub fn deferred_exactly()
    ensures { IsTrue (list_all defers_exactly boot_classes) }
{}

/// The table of the methods of texts has exactly the methods of String, StringBuilder and PrintStream.
pub fn text_methods_exactly()
    ensures each { IsTrue (list_all has_text_methods_exactly boot_classes) }
    ensures declared { IsTrue (list_all is_declared text_methods) }
{}

/// The bytes of each built-in class are a constant pool (JVMS 4.4), whole.
pub fn pools_are_read()
    ensures { All HasPool boot_classes }
{}
