//! What the machine itself throws.

ghost use Rattle.std.specs.Prelude.{◌≡◌};
ghost use Rattle.et_event.specs.Errors.{class_of_error, error_of};

use et_program::{BuiltInClass, LinkError};

/// The class of an exception or error that an instruction throws (JVMS 2.10), in `java/lang`.
#[derive(Clone, Copy, Debug, PartialEq, Eq)]
pub enum GuestError {
    AbstractMethodError,
    ArithmeticException,
    ArrayIndexOutOfBoundsException,
    ArrayStoreException,
    ClassCastException,
    ExceptionInInitializerError,
    IllegalMonitorStateException,
    IllegalThreadStateException,
    IncompatibleClassChangeError,
    InstantiationError,
    NegativeArraySizeException,
    NoClassDefFoundError,
    NoSuchFieldError,
    NoSuchMethodError,
    NullPointerException,
    OutOfMemoryError,
    StackOverflowError,
    StringIndexOutOfBoundsException,
    UnsatisfiedLinkError,
}

impl GuestError {
    /// What a failed resolution or selection throws.
    pub fn of(error: LinkError) -> Self
        ensures { result ≡ error_of error }
    {
        match error {
            LinkError::NoClassDefFound => GuestError::NoClassDefFoundError,
            LinkError::NoSuchField => GuestError::NoSuchFieldError,
            LinkError::NoSuchMethod => GuestError::NoSuchMethodError,
            LinkError::IncompatibleClassChange => GuestError::IncompatibleClassChangeError,
            LinkError::AbstractMethod => GuestError::AbstractMethodError,
        }
    }

    /// The built-in class that it is.
    pub fn class(self) -> BuiltInClass
        ensures { result ≡ class_of_error self }
    {
        match self {
            GuestError::AbstractMethodError => BuiltInClass::AbstractMethodError,
            GuestError::ArithmeticException => BuiltInClass::ArithmeticException,
            GuestError::ArrayIndexOutOfBoundsException =>
                BuiltInClass::ArrayIndexOutOfBoundsException,
            GuestError::ArrayStoreException => BuiltInClass::ArrayStoreException,
            GuestError::ClassCastException => BuiltInClass::ClassCastException,
            GuestError::ExceptionInInitializerError => BuiltInClass::ExceptionInInitializerError,
            GuestError::IllegalMonitorStateException => BuiltInClass::IllegalMonitorStateException,
            GuestError::IllegalThreadStateException => BuiltInClass::IllegalThreadStateException,
            GuestError::IncompatibleClassChangeError => BuiltInClass::IncompatibleClassChangeError,
            GuestError::InstantiationError => BuiltInClass::InstantiationError,
            GuestError::NegativeArraySizeException => BuiltInClass::NegativeArraySizeException,
            GuestError::NoClassDefFoundError => BuiltInClass::NoClassDefFoundError,
            GuestError::NoSuchFieldError => BuiltInClass::NoSuchFieldError,
            GuestError::NoSuchMethodError => BuiltInClass::NoSuchMethodError,
            GuestError::NullPointerException => BuiltInClass::NullPointerException,
            GuestError::OutOfMemoryError => BuiltInClass::OutOfMemoryError,
            GuestError::StackOverflowError => BuiltInClass::StackOverflowError,
            GuestError::StringIndexOutOfBoundsException =>
                BuiltInClass::StringIndexOutOfBoundsException,
            GuestError::UnsatisfiedLinkError => BuiltInClass::UnsatisfiedLinkError,
        }
    }
}
