//! How many interfaces, fields and methods stand in lines.

ghost use Rattle.std.specs.Prelude.{◌≡◌, ◌+◌, ◌<◌, ◌^◌, ◌&&◌, nat_le, if◌then◌else◌};
ghost use Rattle.et_asm.specs.Listings.{is_interface_line, is_field_line, is_method_line};

use et_listing::line::Line;

/// How many interfaces, fields and methods stand in lines.
#[derive(Clone, Copy, Debug, PartialEq, Eq)]
pub(crate) struct Counts {
    pub(crate) interfaces: usize,
    pub(crate) fields: usize,
    pub(crate) methods: usize,
}

/// Those of no line.
pub(crate) const NONE: Counts = Counts {
    interfaces: 0,
    fields: 0,
    methods: 0,
};

/// Whether a line is an interface.
pub(crate) fn is_interface(line: &Line) -> bool
    ensures { result ≡ is_interface_line line.now }
{
    match line {
        Line::Interface(_) => true,
        _ => false,
    }
}

/// Whether a line is a field.
pub(crate) fn is_field(line: &Line) -> bool
    ensures { result ≡ is_field_line line.now }
{
    match line {
        Line::Field(..) => true,
        _ => false,
    }
}

/// Whether a line is a method.
pub(crate) fn is_method(line: &Line) -> bool
    ensures { result ≡ is_method_line line.now }
{
    match line {
        Line::Method(..) => true,
        _ => false,
    }
}

impl Counts {
    /// These with those of a line.
    pub(crate) fn with(self, line: &Line) -> Counts
        requires interfaces { self.interfaces < 2 ^ 63 }
        requires fields { self.fields < 2 ^ 63 }
        requires methods { self.methods < 2 ^ 63 }
        ensures interfaces { result.interfaces
            ≡ self.interfaces + (if is_interface_line line.now then 1 else 0) }
        ensures fields { result.fields ≡ self.fields + (if is_field_line line.now then 1 else 0) }
        ensures methods { result.methods ≡ self.methods +
            (if is_method_line line.now then 1 else 0) }
    {
        Counts {
            interfaces: self.interfaces + usize::from(is_interface(line)),
            fields: self.fields + usize::from(is_field(line)),
            methods: self.methods + usize::from(is_method(line)),
        }
    }

    /// Whether a class file can count these.
    pub(crate) fn are_few(self) -> bool
        ensures { result ≡ (nat_le
            self.interfaces 65535 && nat_le self.fields 65535 && nat_le self.methods 65535) }
    {
        self.interfaces <= 0xffff && self.fields <= 0xffff && self.methods <= 0xffff
    }
}
