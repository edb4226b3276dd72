//! The methods of strings, of string builders and of print streams, by class, name and descriptor.

ghost use Rattle.std.specs.Prelude.{◌≡◌, ◌&&◌, find, map, option_map};
ghost use Rattle.std.specs.Str.{bytes_eq};
ghost use Rattle.et_boot.specs.declared.text_methods.TextMethodRow.{TextMethodRow as Row};
ghost use Rattle.et_boot.specs.TextMethods.{has_text_methods as has_texts, text_methods, text_method_called as text_method_by};
ghost use Rattle.et_boot.specs.Shown.{shown_text_row};

/// What an argument of `append`, `print` and `println` is shown as.
#[derive(Clone, Copy, Debug, PartialEq, Eq)]
pub enum Shown {
    Text,
    Int,
    Long,
    Char,
    Truth,
}

/// What a method of a string, of a string builder or of a print stream does.
#[derive(Clone, Copy, Debug, PartialEq, Eq)]
pub enum TextMethod {
    Length,
    CharAt,
    Equals,
    /// The constructor of a string builder without parameters.
    Begin,
    /// The constructor of a string builder with a string.
    BeginWith,
    ToString,
    Append(Shown),
    Print(Shown),
    PrintLine(Shown),
    /// `println` without parameters.
    EndLine,
}

/// A method by its class, its name and its descriptor, and what it does.
struct TextMethodRow {
    class: &'static [u8],
    name: &'static [u8],
    descriptor: &'static [u8],
    method: TextMethod,
}

/// A row of the table.
macro_rules! row {
    ($class:expr, $name:expr, $descriptor:expr, $method:expr) => {
        TextMethodRow {
            class: $class,
            name: $name,
            descriptor: $descriptor,
            method: $method,
        }
    };
}

const STRING: &[u8] = b"java/lang/String";

const BUILDER: &[u8] = b"java/lang/StringBuilder";

const STREAM: &[u8] = b"java/io/PrintStream";

static TEXT_METHODS: [TextMethodRow; 23] = [
    row!(STRING, b"length", b"()I", TextMethod::Length),
    row!(STRING, b"charAt", b"(I)C", TextMethod::CharAt),
    row!(
        STRING,
        b"equals",
        b"(Ljava/lang/Object;)Z",
        TextMethod::Equals
    ),
    row!(BUILDER, b"<init>", b"()V", TextMethod::Begin),
    row!(
        BUILDER,
        b"<init>",
        b"(Ljava/lang/String;)V",
        TextMethod::BeginWith
    ),
    row!(BUILDER, b"length", b"()I", TextMethod::Length),
    row!(
        BUILDER,
        b"toString",
        b"()Ljava/lang/String;",
        TextMethod::ToString
    ),
    row!(
        BUILDER,
        b"append",
        b"(Ljava/lang/String;)Ljava/lang/StringBuilder;",
        TextMethod::Append(Shown::Text)
    ),
    row!(
        BUILDER,
        b"append",
        b"(I)Ljava/lang/StringBuilder;",
        TextMethod::Append(Shown::Int)
    ),
    row!(
        BUILDER,
        b"append",
        b"(J)Ljava/lang/StringBuilder;",
        TextMethod::Append(Shown::Long)
    ),
    row!(
        BUILDER,
        b"append",
        b"(C)Ljava/lang/StringBuilder;",
        TextMethod::Append(Shown::Char)
    ),
    row!(
        BUILDER,
        b"append",
        b"(Z)Ljava/lang/StringBuilder;",
        TextMethod::Append(Shown::Truth)
    ),
    row!(
        STREAM,
        b"print",
        b"(Ljava/lang/String;)V",
        TextMethod::Print(Shown::Text)
    ),
    row!(STREAM, b"print", b"(I)V", TextMethod::Print(Shown::Int)),
    row!(STREAM, b"print", b"(J)V", TextMethod::Print(Shown::Long)),
    row!(STREAM, b"print", b"(C)V", TextMethod::Print(Shown::Char)),
    row!(STREAM, b"print", b"(Z)V", TextMethod::Print(Shown::Truth)),
    row!(
        STREAM,
        b"println",
        b"(Ljava/lang/String;)V",
        TextMethod::PrintLine(Shown::Text)
    ),
    row!(
        STREAM,
        b"println",
        b"(I)V",
        TextMethod::PrintLine(Shown::Int)
    ),
    row!(
        STREAM,
        b"println",
        b"(J)V",
        TextMethod::PrintLine(Shown::Long)
    ),
    row!(
        STREAM,
        b"println",
        b"(C)V",
        TextMethod::PrintLine(Shown::Char)
    ),
    row!(
        STREAM,
        b"println",
        b"(Z)V",
        TextMethod::PrintLine(Shown::Truth)
    ),
    row!(STREAM, b"println", b"()V", TextMethod::EndLine),
];

/// The first row of a table that has this class, this name and this descriptor.
fn row_called<'a>(
    rows: &'a [TextMethodRow],
    class: &[u8],
    name: &[u8],
    descriptor: &[u8],
) -> Option<&'a TextMethodRow>
    ensures { option_map (λ row. row.now) result ≡ find (λ (row : Row).
        bytes_eq row.class.now class.now
        && bytes_eq row.name.now name.now
        && bytes_eq row.descriptor.now descriptor.now) rows.now }
{
    rows.iter().find(|row| row.class == class && row.name == name && row.descriptor == descriptor)
}

/// What the first row of a table does that has this class, this name and this descriptor.
fn text_method_among(
    rows: &[TextMethodRow],
    class: &[u8],
    name: &[u8],
    descriptor: &[u8],
) -> Option<TextMethod>
    ensures { map shown_text_row rows.now ≡ text_methods
        → result ≡ text_method_by class.now name.now descriptor.now }
{
    match row_called(rows, class, name, descriptor) {
        Some(row) => Some(row.method),
        None => None,
    }
}

/// What the method of the built-in class of this name does that has this name and this descriptor (JVMS 4.3.3), where that is
/// a method of strings, of string builders or of print streams; `None` exactly where it is none.
pub fn text_method_called(class: &[u8], name: &[u8], descriptor: &[u8]) -> Option<TextMethod>
    ensures { result ≡ text_method_by class.now name.now descriptor.now }
{
    text_method_among(&TEXT_METHODS, class, name, descriptor)
}

/// Whether the built-in class of this name has methods of texts.
pub(crate) fn has_text_methods(name: &[u8]) -> bool
    ensures { result ≡ has_texts name.now }
{
    name == STRING || name == BUILDER || name == STREAM
}
