//! Whether progress is shown, and how.

ghost use Rattle.std.specs.Prelude.{◌≡◌, ℕ, List, Option, option_map};
ghost use Rattle.wh_diagnostics.specs.ProgressModes.{is_terminal, is_terminal_path, mode_by, mode_of};

use std::fs;
use std::rt::Files;

/// Whether progress is shown on the standard error, and how.
#[derive(Clone, Copy, PartialEq, Eq, Debug)]
pub enum ProgressMode {
    /// It is not shown.
    Hidden,
    /// In lines, one after the other.
    Lines,
    /// In one line, which is written over itself and erased in the end.
    InPlace,
}

/// Where the system has a link to what the standard error is.
const STANDARD_ERROR: &str = "/proc/self/fd/2";

/// Whether a path is that of a terminal.
fn is_terminal_path(path: &str) -> bool
    ensures { result ≡ is_terminal_path path.now }
{
    path.starts_with("/dev/pts/") || path.starts_with("/dev/tty")
}

/// Whether the link of the standard error, if there is one, leads to a terminal.
fn is_terminal(link: Option<&str>) -> bool
    ensures { result ≡ is_terminal (option_map (λ path. path.now) link.entry) }
{
    match link {
        Some(path) => is_terminal_path(path),
        None => false,
    }
}

/// How progress is shown on a terminal or elsewhere, if it is asked for or not.
fn mode_of(terminal: bool, asked: bool) -> ProgressMode
    ensures { result ≡ mode_of terminal asked }
{
    match (terminal, asked) {
        (true, _) => ProgressMode::InPlace,
        (false, true) => ProgressMode::Lines,
        (false, false) => ProgressMode::Hidden,
    }
}

/// Returns how progress is shown, by the path to which the link of the standard error leads: in
/// place if that is a terminal, and elsewhere in lines if it is asked for. Without a link the
/// standard error counts as no terminal.
pub fn mode_by(link: Option<&str>, asked: bool) -> ProgressMode
    ensures mode { result ≡ mode_by (option_map (λ path. path.now) link.entry) asked }
{
    mode_of(is_terminal(link), asked)
}

/// Returns how progress is shown, as `mode_by` does, by the link that the system has for the
/// standard error. Contracts know nothing of that link.
pub fn progress_mode<R: Files + AllocGlobal>(rt: &R, asked: bool) -> ProgressMode
    ensures mode { (link : Option (List ℕ)) × (result ≡ mode_by link asked) }
{
    match fs::read_link(rt, STANDARD_ERROR) {
        Ok(path) => mode_by(Some(path.as_str()), asked),
        Err(_) => mode_by(None, asked),
    }
}
