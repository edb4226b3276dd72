//! Access flags (JVMS 4.1, table 4.1-A; 4.5, table 4.5-A; 4.6, table 4.6-A).

ghost use Rattle.std.specs.Prelude.{◌≡◌};
ghost use Rattle.et_class.specs.Names.{has as has_flag};
ghost use Rattle.et_class.specs.Fields.{is_one_access};

pub const PUBLIC: u16 = 0x0001;

pub const PRIVATE: u16 = 0x0002;

pub const PROTECTED: u16 = 0x0004;

pub const STATIC: u16 = 0x0008;

pub const FINAL: u16 = 0x0010;

pub const SYNCHRONIZED: u16 = 0x0020;

pub const VOLATILE: u16 = 0x0040;

pub const NATIVE: u16 = 0x0100;

pub const INTERFACE: u16 = 0x0200;

pub const ABSTRACT: u16 = 0x0400;

/// Whether a flag is set.
pub fn has(flags: u16, bit: u16) -> bool
    ensures { result ≡ has_flag flags bit }
{
    flags & bit != 0
}

/// Whether at most one of public, private and protected is set.
pub(crate) fn has_one_access(flags: u16) -> bool
    ensures { result ≡ is_one_access flags }
{
    let access = flags & (PUBLIC | PRIVATE | PROTECTED);
    access == 0 || access == PUBLIC || access == PRIVATE || access == PROTECTED
}
