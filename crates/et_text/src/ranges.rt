//! The bounds of the fields of a line. What has a limit is below it.

/// The greatest event, and the greatest interval of flushes, in events. No field of a line is greater.
pub const GREATEST_EVENT: u64 = 1 << 40;

/// How many threads there are at most. They are numbered from 0.
pub const THREAD_COUNT: u8 = 64;

/// The greatest number of a class or a method.
pub const GREATEST_NUMBER: u32 = u32::MAX;

/// The limit of an object, and of how many deaths a flush tells.
pub const OBJECT_LIMIT: u32 = 1 << 24;

/// The limit of the number of a slot.
pub const SLOT_LIMIT: u32 = 1 << 28;

/// The least size of an object, in bytes.
pub const LEAST_SIZE: u64 = 16;

/// The greatest size of an object, in bytes.
pub const GREATEST_SIZE: u64 = 1 << 30;

/// The greatest length of an array.
pub const GREATEST_LENGTH: u32 = 1 << 26;

/// The greatest of the numbers that say how a run ended.
pub const GREATEST_ENDING: u8 = 3;
