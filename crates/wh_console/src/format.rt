//! The format of a report.

/// The format of a report.
#[derive(Clone, Copy, Debug, PartialEq, Eq)]
pub enum Format {
    /// Lines of text.
    Text,
    /// Lines of JSON (RFC 8259).
    Json,
}
