//! The built-in classes that the machine itself names.

ghost use Rattle.std.specs.Prelude.{◌≡◌, Some};
ghost use Rattle.std.specs.List.{position_from};
ghost use Rattle.et_boot.specs.Classes.{boot_classes};
ghost use Rattle.et_boot.specs.Facts.{is_class_named};
ghost use Rattle.et_boot.specs.Names.{built_in_class_name};

/// A built-in class that the machine itself names, with its place in the table. Those behind System are
/// exceptions and errors that instructions and built-in methods throw (JVMS 2.10).
#[derive(Clone, Copy, Debug, PartialEq, Eq)]
pub enum BuiltInClass {
    Object = 0,
    String = 5,
    Thread = 6,
    ReferenceQueue = 9,
    Throwable = 10,
    StringBuilder = 11,
    PrintStream = 12,
    System = 13,
    Error = 15,
    ArithmeticException = 19,
    ArrayStoreException = 20,
    ClassCastException = 21,
    IllegalMonitorStateException = 23,
    NegativeArraySizeException = 26,
    NullPointerException = 27,
    ArrayIndexOutOfBoundsException = 29,
    IllegalThreadStateException = 30,
    NoClassDefFoundError = 34,
    ExceptionInInitializerError = 35,
    UnsatisfiedLinkError = 36,
    IncompatibleClassChangeError = 37,
    AbstractMethodError = 38,
    InstantiationError = 39,
    NoSuchFieldError = 40,
    NoSuchMethodError = 41,
    StackOverflowError = 42,
    OutOfMemoryError = 43,
    StringIndexOutOfBoundsException = 44,
}

impl BuiltInClass {
    /// The place of the class in the table, from 0 on.
    pub fn place(self) -> u32
        ensures { position_from (is_class_named (built_in_class_name self)) 0 boot_classes
            ≡ Some result }
    {
        self as u32
    }
}
