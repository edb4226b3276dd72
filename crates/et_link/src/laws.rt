//! What the definitions mean.

ghost use Rattle.std.specs.Prelude.{◌≡◌, ℕ, ◌<◌, length, List, Result, All, map};
ghost use Rattle.et_class.specs.declared.class.ClassFile.{ClassFile};
ghost use Rattle.et_class.specs.Classes.{class_of, HasItsParts};
ghost use Rattle.et_program.specs.Loaded.{LoadedClass, loaded_class, loaded_file};
ghost use Rattle.et_link.specs.Refusals.{LinkIs};
ghost use Rattle.et_program.specs.declared.fault.LinkFaultKind.{LinkFaultKind};
ghost use Rattle.et_program.specs.Entries.{Linked};
ghost use Rattle.et_program.specs.Files.{boots};
ghost use Rattle.et_link.specs.BuiltIn.{KeepsBuiltInCode};

/// What linking reads of class files that were read is what it reads of the classes that their bytes are.
pub fn files_are_classes()
    ensures { (files : List ClassFile) →
        All HasItsParts files → map loaded_file files ≡ map loaded_class (map class_of files) }
{}

/// Files are at most one program, or have at most one fault, and not both.
pub fn answers_are_one()
    ensures { (files : List LoadedClass) (answer other : Result Linked (LinkFaultKind × ℕ)) →
        LinkIs files answer → LinkIs files other → answer ≡ other }
{}

/// One file or more are a program, or have a fault.
pub fn answers_exist()
    ensures { (files : List LoadedClass) →
        0 < length files → (answer : Result Linked (LinkFaultKind × ℕ)) × LinkIs files answer }
{}

/// The code of each built-in method keeps all rules on code (JVMS 4.7.3, 4.9.1).
pub fn built_in_code_keeps_rules()
    ensures { All KeepsBuiltInCode boots }
{}
