//! What every linked program has, that its run asks. Each law is a function with an empty body: what it promises is its
//! contract. `IsLinkable` is what linking answers beside the program.

ghost use Rattle.std.specs.Prelude.{◌<◌, List, All, length, map};
ghost use Rattle.et_class.specs.Layout.{ClassOf};
ghost use Rattle.et_program.specs.LinkFaults.{IsLinkable};
ghost use Rattle.et_program.specs.Loaded.{LoadedClass, loaded_class};
ghost use Rattle.et_program.specs.ProgramOf.{IsProgramOf};
ghost use Rattle.et_program.specs.Entries.{Linked};
ghost use Rattle.et_event.specs.Runnable.{IsRunnable};
ghost use Rattle.et_history.specs.programs.Programs.{KeepRules};
ghost use Rattle.et_program.specs.Linking.{IsOfFile};
ghost use Rattle.et_history.specs.programs.Fields.{KeepsFieldRules};
ghost use Rattle.et_event.specs.InitializationOrder.{IsInOrder};
ghost use Rattle.et_event.specs.Interfaces.{KnowsInterfaces};

/// What linking reads of class files keeps all rules of class files.
pub fn files_keep_rules()
    ensures { (classes : List ClassOf) →
        All IsOfFile classes → KeepRules (map loaded_class classes) }
{}

/// A program that was linked of one class file or more has all that its run asks.
pub fn programs_may_run()
    ensures { (files : List LoadedClass) (p : Linked) → 0 < length files →
        KeepRules files → IsLinkable files → IsProgramOf files p → IsRunnable p }
{}

/// The constants of a class are static fields of it, each once; and with what is initialized with a class, it is initialized
/// with all that this is initialized with (JVMS 5.5).
pub fn programs_are_in_order()
    ensures { (files : List LoadedClass) (p : Linked) →
        All KeepsFieldRules files → IsLinkable files → IsProgramOf files p → IsInOrder p }
{}

/// No superclass is an interface, and each superinterface is one (JVMS 5.3.5).
pub fn programs_know_interfaces()
    ensures { (files : List LoadedClass) (p : Linked) →
        IsLinkable files → IsProgramOf files p → KnowsInterfaces p }
{}
