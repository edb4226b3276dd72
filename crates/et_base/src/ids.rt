//! The numbers by which the guest's things are known. A contract sees each of them as a plain number.
use std::marker::Model;

/// The number of an object, from 1 on in the order in which objects are made. A number is never used again.
#[derive(Clone, Copy, Debug, PartialEq, Eq, PartialOrd, Ord, Hash)]
pub struct ObjectId(u32);

impl Model for ObjectId {
    ghost use Rattle.std.specs.Prelude.{ℕ};

    ghost Value = { ℕ };

    ghost view = { λ i. i.0 };

    ghost inverse = { λ n. record { 0 = n } };
}

impl ObjectId {
    ghost use Rattle.std.specs.Prelude.{◌≡◌, ◌<◌, ◌^◌};

    /// The object of this number.
    pub fn new(number: u32) -> Self
        ensures { result ≡ number }
    {
        ObjectId(number)
    }

    /// The number.
    pub fn number(self) -> u32
        ensures value { result ≡ self }
        ensures fits { self < 2 ^ 32 }
    {
        self.0
    }
}

/// The number of a class of a program, below its `class_count`. It is no number of the trace.
#[derive(Clone, Copy, Debug, PartialEq, Eq, PartialOrd, Ord, Hash)]
pub struct ClassId(u32);

impl Model for ClassId {
    ghost use Rattle.std.specs.Prelude.{ℕ};

    ghost Value = { ℕ };

    ghost view = { λ i. i.0 };

    ghost inverse = { λ n. record { 0 = n } };
}

impl ClassId {
    ghost use Rattle.std.specs.Prelude.{◌≡◌, ◌<◌, ◌^◌};

    /// The class of this number.
    pub fn new(number: u32) -> Self
        ensures { result ≡ number }
    {
        ClassId(number)
    }

    /// The number.
    pub fn number(self) -> u32
        ensures value { result ≡ self }
        ensures fits { self < 2 ^ 32 }
    {
        self.0
    }
}

/// The number of a method of a program, below its `method_count`. It is no number of the trace.
#[derive(Clone, Copy, Debug, PartialEq, Eq, PartialOrd, Ord, Hash)]
pub struct MethodId(u32);

impl Model for MethodId {
    ghost use Rattle.std.specs.Prelude.{ℕ};

    ghost Value = { ℕ };

    ghost view = { λ i. i.0 };

    ghost inverse = { λ n. record { 0 = n } };
}

impl MethodId {
    ghost use Rattle.std.specs.Prelude.{◌≡◌, ◌<◌, ◌^◌};

    /// The method of this number.
    pub fn new(number: u32) -> Self
        ensures { result ≡ number }
    {
        MethodId(number)
    }

    /// The number.
    pub fn number(self) -> u32
        ensures value { result ≡ self }
        ensures fits { self < 2 ^ 32 }
    {
        self.0
    }
}

/// The number of a field of a program, by which its table of fields has it.
#[derive(Clone, Copy, Debug, PartialEq, Eq, PartialOrd, Ord, Hash)]
pub struct FieldId(u32);

impl Model for FieldId {
    ghost use Rattle.std.specs.Prelude.{ℕ};

    ghost Value = { ℕ };

    ghost view = { λ i. i.0 };

    ghost inverse = { λ n. record { 0 = n } };
}

impl FieldId {
    ghost use Rattle.std.specs.Prelude.{◌≡◌, ◌<◌, ◌^◌};

    /// The field of this number.
    pub fn new(number: u32) -> Self
        ensures { result ≡ number }
    {
        FieldId(number)
    }

    /// The number.
    pub fn number(self) -> u32
        ensures value { result ≡ self }
        ensures fits { self < 2 ^ 32 }
    {
        self.0
    }
}

/// The number of a guest thread, from 0 on in the order in which threads are started; at most 63 in a run.
#[derive(Clone, Copy, Debug, PartialEq, Eq, PartialOrd, Ord, Hash)]
pub struct ThreadId(u8);

impl Model for ThreadId {
    ghost use Rattle.std.specs.Prelude.{ℕ};

    ghost Value = { ℕ };

    ghost view = { λ i. i.0 };

    ghost inverse = { λ n. record { 0 = n } };
}

impl ThreadId {
    ghost use Rattle.std.specs.Prelude.{◌≡◌, ◌<◌, ◌^◌};

    /// The thread of this number.
    pub fn new(number: u8) -> Self
        ensures { result ≡ number }
    {
        ThreadId(number)
    }

    /// The number.
    pub fn number(self) -> u8
        ensures value { result ≡ self }
        ensures fits { self < 2 ^ 8 }
    {
        self.0
    }
}
