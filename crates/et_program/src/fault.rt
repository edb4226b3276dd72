//! What a class shows that keeps files from being linked.

/// What a class shows that keeps files from being linked, in the order in which one is answered.
#[derive(Clone, Copy, Debug, PartialEq, Eq)]
pub enum LinkFaultKind {
    /// An earlier class has its name (JVMS 5.3.5).
    Duplicate = 1,
    /// Its superclass or a direct superinterface isn't there, or is of the wrong kind (JVMS 5.3.5).
    NoSuper = 2,
    /// It is its own ancestor (JVMS 5.3.5).
    Cycle = 3,
    /// Its superclass is final (JVMS 4.10).
    FinalSuper = 4,
    /// A method of it redeclares a package-private method of a superclass in another package (JVMS 5.4.5).
    CrossPackage = 5,
    /// It is the class of the first file, and declares no static `main ([Ljava/lang/String;)V` with code.
    NoMain = 6,
    /// It is the class of the 4,097th file.
    TooMany = 7,
}
