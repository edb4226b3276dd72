//! The built-in methods without code, by name and descriptor.

ghost use Rattle.std.specs.Prelude.{◌≡◌, ◌&&◌, find, map, option_map};
ghost use Rattle.std.specs.Str.{bytes_eq};
ghost use Rattle.et_boot.specs.declared.built_ins.BuiltInRow.{BuiltInRow as Row};
ghost use Rattle.et_boot.specs.BuiltIns.{built_ins, built_in_called as built_in_by, is_deferring_class};
ghost use Rattle.et_boot.specs.Shown.{shown_row};

use crate::text_methods::has_text_methods;

/// What a built-in method without code does.
#[derive(Clone, Copy, Debug, PartialEq, Eq)]
pub enum BuiltIn {
    /// Nothing: the constructors without parameters, and `addSuppressed`.
    Nothing,
    /// The constructor of a throwable with a message.
    SetMessage,
    /// The constructor of a throwable with a message and a cause.
    SetMessageAndCause,
    GetMessage,
    GetCause,
    /// The constructor of a thread with a target.
    SetTarget,
    Start,
    Join,
    /// The constructor of a weak reference without a queue.
    SetReferent,
    /// The constructor of a weak reference with a queue.
    SetReferentAndQueue,
    GetReferent,
    ClearReferent,
    /// `poll` of a reference queue.
    Poll,
}

/// A method by its name and its descriptor, and what it does.
struct BuiltInRow {
    name: &'static [u8],
    descriptor: &'static [u8],
    built_in: BuiltIn,
}

/// A row of the table.
macro_rules! row {
    ($name:expr, $descriptor:expr, $built_in:expr) => {
        BuiltInRow {
            name: $name,
            descriptor: $descriptor,
            built_in: $built_in,
        }
    };
}

static BUILT_INS: [BuiltInRow; 14] = [
    row!(b"<init>", b"()V", BuiltIn::Nothing),
    row!(b"<init>", b"(Ljava/lang/String;)V", BuiltIn::SetMessage),
    row!(
        b"<init>",
        b"(Ljava/lang/String;Ljava/lang/Throwable;)V",
        BuiltIn::SetMessageAndCause
    ),
    row!(b"getMessage", b"()Ljava/lang/String;", BuiltIn::GetMessage),
    row!(b"getCause", b"()Ljava/lang/Throwable;", BuiltIn::GetCause),
    row!(
        b"addSuppressed",
        b"(Ljava/lang/Throwable;)V",
        BuiltIn::Nothing
    ),
    row!(b"<init>", b"(Ljava/lang/Runnable;)V", BuiltIn::SetTarget),
    row!(b"start", b"()V", BuiltIn::Start),
    row!(b"join", b"()V", BuiltIn::Join),
    row!(b"<init>", b"(Ljava/lang/Object;)V", BuiltIn::SetReferent),
    row!(
        b"<init>",
        b"(Ljava/lang/Object;Ljava/lang/ref/ReferenceQueue;)V",
        BuiltIn::SetReferentAndQueue
    ),
    row!(b"get", b"()Ljava/lang/Object;", BuiltIn::GetReferent),
    row!(b"clear", b"()V", BuiltIn::ClearReferent),
    row!(b"poll", b"()Ljava/lang/ref/Reference;", BuiltIn::Poll),
];

/// The first row of a table that has this name and this descriptor.
fn row_called<'a>(rows: &'a [BuiltInRow], name: &[u8], descriptor: &[u8]) -> Option<&'a BuiltInRow>
    ensures { option_map (λ row. row.now) result ≡ find
        (λ (row : Row).
        bytes_eq row.name.now name.now && bytes_eq row.descriptor.now descriptor.now)
        rows.now }
{
    rows.iter()
        .find(|row| row.name == name && row.descriptor == descriptor)
}

/// What the first row of a table does that has this name and this descriptor.
fn built_in_among(rows: &[BuiltInRow], name: &[u8], descriptor: &[u8]) -> Option<BuiltIn>
    ensures { map shown_row rows.now ≡ built_ins → result ≡ built_in_by name.now descriptor.now }
{
    match row_called(rows, name, descriptor) {
        Some(row) => Some(row.built_in),
        None => None,
    }
}

/// The built-in method without code that has this name and this descriptor (JVMS 4.3.3); `None` exactly where none has.
pub fn built_in_called(name: &[u8], descriptor: &[u8]) -> Option<BuiltIn>
    ensures { result ≡ built_in_by name.now descriptor.now }
{
    built_in_among(&BUILT_INS, name, descriptor)
}

/// Whether the built-in class of this name is one of those whose methods without code are a part of the machine that is made
/// for threads, weak references and their queues, or for texts: Thread, Reference, WeakReference or ReferenceQueue, or
/// String, StringBuilder or PrintStream.
pub fn is_deferring(name: &[u8]) -> bool
    ensures { result ≡ is_deferring_class name.now }
{
    name == b"java/lang/Thread".as_slice()
        || name == b"java/lang/ref/Reference".as_slice()
        || name == b"java/lang/ref/WeakReference".as_slice()
        || name == b"java/lang/ref/ReferenceQueue".as_slice()
        || has_text_methods(name)
}
