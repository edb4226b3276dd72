//! The built-in classes: a table of what each declares. No class file gives them.
#![tactic(auto)]

ghost use Rattle.std.specs.Prelude.{◌≡◌, ◌<◌, length, map};
ghost use Rattle.et_boot.specs.Classes.{boot_classes, first_classes, no_boot_class, throwables};
ghost use Rattle.et_boot.specs.Shown.{shown};
ghost use Rattle.std.specs.List.{slice_index_or};

mod built_ins;
mod entries;
pub mod laws;
mod names;
#[cfg(test)]
mod tests;
mod text_methods;

pub use built_ins::{BuiltIn, built_in_called, is_deferring};
pub use entries::{BootClass, BootCode, BootField, BootMethod};
pub use names::BuiltInClass;
pub use text_methods::{Shown, TextMethod, text_method_called};

const PUBLIC: u16 = 0x0001;

const PUBLIC_STATIC: u16 = 0x0009;

const PUBLIC_FINAL: u16 = 0x0011;

const PUBLIC_ABSTRACT: u16 = 0x0401;

const PUBLIC_INTERFACE: u16 = 0x0601;

/// The bytes of a pool without entries.
const NO_ENTRIES: &[u8] = b"\x00\x01";

/// A public method without code that isn't deferred.
const PLAIN_METHOD: BootMethod = BootMethod {
    name: b"",
    descriptor: b"",
    flags: PUBLIC,
    code: None,
    deferred: false,
};

/// A public class right below Object that declares nothing.
const PLAIN_CLASS: BootClass = BootClass {
    name: b"",
    super_name: Some(b"java/lang/Object"),
    flags: PUBLIC,
    interfaces: &[],
    pool: NO_ENTRIES,
    slots: 0,
    fields: &[],
    methods: &[],
};

/// A public method that the machine runs itself.
macro_rules! built_in {
    ($name:expr, $descriptor:expr) => {
        BootMethod {
            name: $name,
            descriptor: $descriptor,
            ..PLAIN_METHOD
        }
    };
}

/// A public method of threads, of weak references or of their queues, or of texts, that the machine runs itself.
macro_rules! deferred {
    ($name:expr, $descriptor:expr) => {
        BootMethod {
            name: $name,
            descriptor: $descriptor,
            deferred: true,
            ..PLAIN_METHOD
        }
    };
}

/// A public method that a class below has to declare.
macro_rules! without_body {
    ($name:expr, $descriptor:expr) => {
        BootMethod {
            name: $name,
            descriptor: $descriptor,
            flags: PUBLIC_ABSTRACT,
            ..PLAIN_METHOD
        }
    };
}

/// An interface with these methods.
macro_rules! interface {
    ($name:expr, $methods:expr) => {
        BootClass {
            name: $name,
            flags: PUBLIC_INTERFACE,
            methods: $methods,
            ..PLAIN_CLASS
        }
    };
}

/// A class below Throwable.
macro_rules! throwable {
    ($name:expr, $above:expr) => {
        BootClass {
            name: $name,
            super_name: Some($above),
            methods: &[
                built_in!(b"<init>", b"()V"),
                built_in!(b"<init>", b"(Ljava/lang/String;)V"),
                built_in!(b"<init>", b"(Ljava/lang/String;Ljava/lang/Throwable;)V"),
            ],
            ..PLAIN_CLASS
        }
    };
}

const OBJECT: BootClass = BootClass {
    name: b"java/lang/Object",
    super_name: None,
    methods: &[built_in!(b"<init>", b"()V")],
    ..PLAIN_CLASS
};

const STRING: BootClass = BootClass {
    name: b"java/lang/String",
    flags: PUBLIC_FINAL,
    methods: &[
        deferred!(b"length", b"()I"),
        deferred!(b"charAt", b"(I)C"),
        deferred!(b"equals", b"(Ljava/lang/Object;)Z"),
    ],
    ..PLAIN_CLASS
};

const STRING_BUILDER: BootClass = BootClass {
    name: b"java/lang/StringBuilder",
    methods: &[
        deferred!(b"<init>", b"()V"),
        deferred!(b"<init>", b"(Ljava/lang/String;)V"),
        deferred!(b"length", b"()I"),
        deferred!(b"toString", b"()Ljava/lang/String;"),
        deferred!(b"append", b"(Ljava/lang/String;)Ljava/lang/StringBuilder;"),
        deferred!(b"append", b"(I)Ljava/lang/StringBuilder;"),
        deferred!(b"append", b"(J)Ljava/lang/StringBuilder;"),
        deferred!(b"append", b"(C)Ljava/lang/StringBuilder;"),
        deferred!(b"append", b"(Z)Ljava/lang/StringBuilder;"),
    ],
    ..PLAIN_CLASS
};

const PRINT_STREAM: BootClass = BootClass {
    name: b"java/io/PrintStream",
    methods: &[
        deferred!(b"print", b"(Ljava/lang/String;)V"),
        deferred!(b"print", b"(I)V"),
        deferred!(b"print", b"(J)V"),
        deferred!(b"print", b"(C)V"),
        deferred!(b"print", b"(Z)V"),
        deferred!(b"println", b"(Ljava/lang/String;)V"),
        deferred!(b"println", b"(I)V"),
        deferred!(b"println", b"(J)V"),
        deferred!(b"println", b"(C)V"),
        deferred!(b"println", b"(Z)V"),
        deferred!(b"println", b"()V"),
    ],
    ..PLAIN_CLASS
};

/// Its field is the one static field of a built-in class.
const SYSTEM: BootClass = BootClass {
    name: b"java/lang/System",
    fields: &[BootField {
        name: b"out",
        descriptor: b"Ljava/io/PrintStream;",
        flags: PUBLIC_STATIC,
    }],
    ..PLAIN_CLASS
};

/// Thread's pool: 6 is the field `target`, 12 the method `run` of Runnable.
const THREAD_POOL: &[u8] = b"\x00\x0d\
\x01\x00\x10java/lang/Thread\
\x07\x00\x01\
\x01\x00\x06target\
\x01\x00\x14Ljava/lang/Runnable;\
\x0c\x00\x03\x00\x04\
\x09\x00\x02\x00\x05\
\x01\x00\x12java/lang/Runnable\
\x07\x00\x07\
\x01\x00\x03run\
\x01\x00\x03()V\
\x0c\x00\x09\x00\x0a\
\x0b\x00\x08\x00\x0b";

/// `aload_0; getfield target; ifnull 16; aload_0; getfield target; invokeinterface run; return`
const THREAD_RUN: &[u8] = b"\x2a\xb4\x00\x06\xc6\x00\x0c\x2a\xb4\x00\x06\xb9\x00\x0c\x01\x00\xb1";

const THREAD: BootClass = BootClass {
    name: b"java/lang/Thread",
    interfaces: &[b"java/lang/Runnable"],
    pool: THREAD_POOL,
    slots: 1,
    fields: &[BootField {
        name: b"target",
        descriptor: b"Ljava/lang/Runnable;",
        flags: PUBLIC,
    }],
    methods: &[
        deferred!(b"<init>", b"()V"),
        deferred!(b"<init>", b"(Ljava/lang/Runnable;)V"),
        deferred!(b"start", b"()V"),
        deferred!(b"join", b"()V"),
        BootMethod {
            name: b"run",
            descriptor: b"()V",
            flags: PUBLIC,
            code: Some(BootCode {
                max_stack: 1,
                max_locals: 1,
                code: THREAD_RUN,
            }),
            ..PLAIN_METHOD
        },
    ],
    ..PLAIN_CLASS
};

const REFERENCE: BootClass = BootClass {
    name: b"java/lang/ref/Reference",
    flags: PUBLIC_ABSTRACT,
    methods: &[
        deferred!(b"get", b"()Ljava/lang/Object;"),
        deferred!(b"clear", b"()V"),
    ],
    ..PLAIN_CLASS
};

const WEAK_REFERENCE: BootClass = BootClass {
    name: b"java/lang/ref/WeakReference",
    super_name: Some(b"java/lang/ref/Reference"),
    methods: &[
        deferred!(b"<init>", b"(Ljava/lang/Object;)V"),
        deferred!(
            b"<init>",
            b"(Ljava/lang/Object;Ljava/lang/ref/ReferenceQueue;)V"
        ),
    ],
    ..PLAIN_CLASS
};

const REFERENCE_QUEUE: BootClass = BootClass {
    name: b"java/lang/ref/ReferenceQueue",
    methods: &[
        deferred!(b"<init>", b"()V"),
        deferred!(b"poll", b"()Ljava/lang/ref/Reference;"),
    ],
    ..PLAIN_CLASS
};

/// Slot 0 is the message and slot 1 the cause; neither is a field that a name resolves to.
const THROWABLE: BootClass = BootClass {
    name: b"java/lang/Throwable",
    interfaces: &[b"java/io/Serializable"],
    slots: 2,
    methods: &[
        built_in!(b"<init>", b"()V"),
        built_in!(b"<init>", b"(Ljava/lang/String;)V"),
        built_in!(b"<init>", b"(Ljava/lang/String;Ljava/lang/Throwable;)V"),
        built_in!(b"getMessage", b"()Ljava/lang/String;"),
        built_in!(b"getCause", b"()Ljava/lang/Throwable;"),
        built_in!(b"addSuppressed", b"(Ljava/lang/Throwable;)V"),
    ],
    ..PLAIN_CLASS
};

/// The classes that aren't below Throwable, and Throwable.
static CLASSES: [BootClass; 14] = [
    OBJECT,
    interface!(b"java/lang/Runnable", &[without_body!(b"run", b"()V")]),
    interface!(b"java/lang/Cloneable", &[]),
    interface!(
        b"java/lang/AutoCloseable",
        &[without_body!(b"close", b"()V")]
    ),
    interface!(b"java/io/Serializable", &[]),
    STRING,
    THREAD,
    REFERENCE,
    WEAK_REFERENCE,
    REFERENCE_QUEUE,
    THROWABLE,
    STRING_BUILDER,
    PRINT_STREAM,
    SYSTEM,
];

/// The classes below Throwable.
static THROWABLES: [BootClass; 31] = [
    throwable!(b"java/lang/Exception", b"java/lang/Throwable"),
    throwable!(b"java/lang/Error", b"java/lang/Throwable"),
    throwable!(b"java/lang/RuntimeException", b"java/lang/Exception"),
    throwable!(b"java/lang/InterruptedException", b"java/lang/Exception"),
    throwable!(
        b"java/lang/CloneNotSupportedException",
        b"java/lang/Exception"
    ),
    throwable!(
        b"java/lang/ArithmeticException",
        b"java/lang/RuntimeException"
    ),
    throwable!(
        b"java/lang/ArrayStoreException",
        b"java/lang/RuntimeException"
    ),
    throwable!(
        b"java/lang/ClassCastException",
        b"java/lang/RuntimeException"
    ),
    throwable!(
        b"java/lang/IllegalArgumentException",
        b"java/lang/RuntimeException"
    ),
    throwable!(
        b"java/lang/IllegalMonitorStateException",
        b"java/lang/RuntimeException"
    ),
    throwable!(
        b"java/lang/IllegalStateException",
        b"java/lang/RuntimeException"
    ),
    throwable!(
        b"java/lang/IndexOutOfBoundsException",
        b"java/lang/RuntimeException"
    ),
    throwable!(
        b"java/lang/NegativeArraySizeException",
        b"java/lang/RuntimeException"
    ),
    throwable!(
        b"java/lang/NullPointerException",
        b"java/lang/RuntimeException"
    ),
    throwable!(
        b"java/lang/UnsupportedOperationException",
        b"java/lang/RuntimeException"
    ),
    throwable!(
        b"java/lang/ArrayIndexOutOfBoundsException",
        b"java/lang/IndexOutOfBoundsException"
    ),
    throwable!(
        b"java/lang/IllegalThreadStateException",
        b"java/lang/IllegalArgumentException"
    ),
    throwable!(b"java/lang/LinkageError", b"java/lang/Error"),
    throwable!(b"java/lang/VirtualMachineError", b"java/lang/Error"),
    throwable!(b"java/lang/AssertionError", b"java/lang/Error"),
    throwable!(b"java/lang/NoClassDefFoundError", b"java/lang/LinkageError"),
    throwable!(
        b"java/lang/ExceptionInInitializerError",
        b"java/lang/LinkageError"
    ),
    throwable!(b"java/lang/UnsatisfiedLinkError", b"java/lang/LinkageError"),
    throwable!(
        b"java/lang/IncompatibleClassChangeError",
        b"java/lang/LinkageError"
    ),
    throwable!(
        b"java/lang/AbstractMethodError",
        b"java/lang/IncompatibleClassChangeError"
    ),
    throwable!(
        b"java/lang/InstantiationError",
        b"java/lang/IncompatibleClassChangeError"
    ),
    throwable!(
        b"java/lang/NoSuchFieldError",
        b"java/lang/IncompatibleClassChangeError"
    ),
    throwable!(
        b"java/lang/NoSuchMethodError",
        b"java/lang/IncompatibleClassChangeError"
    ),
    throwable!(
        b"java/lang/StackOverflowError",
        b"java/lang/VirtualMachineError"
    ),
    throwable!(
        b"java/lang/OutOfMemoryError",
        b"java/lang/VirtualMachineError"
    ),
    throwable!(
        b"java/lang/StringIndexOutOfBoundsException",
        b"java/lang/IndexOutOfBoundsException"
    ),
];

/// How many built-in classes there are.
pub fn boot_count() -> usize
    ensures { result ≡ length boot_classes }
{
    CLASSES.len() + THROWABLES.len()
}

/// A row of a table.
fn row(rows: &[BootClass], i: usize) -> BootClass
    requires { i < length rows.now }
    ensures { shown result ≡ slice_index_or (map shown rows.now) i no_boot_class }
{
    rows[i]
}

/// A row of the first table.
fn first_class(i: usize) -> BootClass
    requires { i < length first_classes }
    ensures { shown result ≡ slice_index_or first_classes i no_boot_class }
{
    row(&CLASSES, i)
}

/// A row of the second table.
fn class_below_throwable(i: usize) -> BootClass
    requires { i < length throwables }
    ensures { shown result ≡ slice_index_or throwables i no_boot_class }
{
    row(&THROWABLES, i)
}

/// The built-in class at a place of the table, from 0 on. A class stands behind its superclass and its interfaces.
pub fn boot_class(i: usize) -> BootClass
    requires { i < length boot_classes }
    ensures { shown result ≡ slice_index_or boot_classes i no_boot_class }
{
    if i < CLASSES.len() {
        first_class(i)
    } else {
        class_below_throwable(i - CLASSES.len())
    }
}
