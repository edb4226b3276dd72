//! What the table has of a class and of its members.

/// A built-in class.
#[derive(Clone, Copy, Debug)]
pub struct BootClass {
    /// The name, as a class file gives it.
    pub name: &'static [u8],
    /// The name of the superclass; `None` for Object alone.
    pub super_name: Option<&'static [u8]>,
    /// The access flags (JVMS table 4.1-A).
    pub flags: u16,
    /// The names of the direct superinterfaces.
    pub interfaces: &'static [&'static [u8]],
    /// The bytes of a constant pool (JVMS 4.4), its count first, with the entries that the code of its methods names.
    pub pool: &'static [u8],
    /// How many instance slots the class itself declares.
    pub slots: u32,
    /// The fields; those that aren't static have the first of the slots, in order.
    pub fields: &'static [BootField],
    /// The methods.
    pub methods: &'static [BootMethod],
}

/// A field of a built-in class.
#[derive(Clone, Copy, Debug)]
pub struct BootField {
    /// The name.
    pub name: &'static [u8],
    /// The field descriptor (JVMS 4.3.2).
    pub descriptor: &'static [u8],
    /// The access flags (JVMS table 4.5-A).
    pub flags: u16,
}

/// A method of a built-in class.
#[derive(Clone, Copy, Debug)]
pub struct BootMethod {
    /// The name.
    pub name: &'static [u8],
    /// The method descriptor (JVMS 4.3.3).
    pub descriptor: &'static [u8],
    /// The access flags (JVMS table 4.6-A).
    pub flags: u16,
    /// The code; `None` where the method is abstract or the machine runs it itself.
    pub code: Option<BootCode>,
    /// Whether it is a method without code of Thread, Reference, WeakReference or ReferenceQueue, or of String,
    /// StringBuilder or PrintStream.
    pub deferred: bool,
}

/// The code of a built-in method. It has no handlers.
#[derive(Clone, Copy, Debug)]
pub struct BootCode {
    /// How many operands there are at most.
    pub max_stack: u16,
    /// How many locals there are.
    pub max_locals: u16,
    /// The instructions (JVMS 4.7.3).
    pub code: &'static [u8],
}
