//! How a trace is spelled.

/// The spelling of a trace: lines of text, or records whose fields have fixed widths.
#[derive(Clone, Copy, PartialEq, Eq, Debug)]
pub enum Format {
    Text,
    Binary,
}
