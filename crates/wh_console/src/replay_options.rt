//! What a replay of files is asked for.

use crate::format::Format;

/// What a replay of files is asked for, beside its paths.
#[derive(Clone, Copy, Debug)]
pub struct ReplayOptions {
    /// The format of the report.
    pub format: Format,
    /// Whether it is a failure if there is no history.
    pub require_files: bool,
    /// Whether values are reported that differ from what is recorded, in files without a fault.
    pub strict_values: bool,
    /// Whether progress is reported also if the standard error is no terminal.
    pub progress: bool,
}

/// The options of a replay that is given none.
pub const NO_OPTIONS: ReplayOptions = ReplayOptions {
    format: Format::Text,
    require_files: false,
    strict_values: false,
    progress: false,
};
