//! Why a command ends without a full report.

ghost use Rattle.std.specs.Prelude.{◌≡◌, None};
ghost use Rattle.wh_console.specs.declared.files.Reason.{Reason};

use wh_console::{FolderFault, InputFault, Reason};
use wh_events::Text;
use wh_file_faults::{CommandFault, FaultDetail};
use wh_json::ReadFault;

/// Why a command ends without a full report.
#[derive(Drop)]
pub enum Failure {
    /// The command line is invalid.
    BadLine {
        /// What is wrong with it. The text ends its own line.
        text: Text,
    },
    /// A word of the command line is not UTF-8.
    BadArguments,
    /// There are fewer slots than workers.
    FewSlots,
    /// An argument of a query is not JSON.
    BadInput,
    /// A folder or a file, or an entry of a folder, can't be read.
    Unreadable {
        /// The path of the folder or file.
        dir: Text,
        /// The entry of the folder, if it is one.
        entry: Option<String>,
        /// Why it can't be read.
        reason: Reason,
    },
    /// A file whose events are to be shown is not JSON.
    NotJson {
        /// The name of the file.
        file: Text,
        /// Where it stops being JSON.
        detail: FaultDetail,
    },
    /// A file has no events that can be shown.
    NotViewed {
        /// The name of the file.
        file: Text,
        /// The reason.
        fault: ReadFault,
    },
    /// A file is not UTF-8 text.
    NotText {
        /// The name of the file.
        file: Text,
    },
    /// A policy file is refused.
    BadPolicies {
        /// The path of the file.
        file: Text,
        /// The reason, in words.
        why: Text,
    },
    /// The report can't be written.
    Output,
    /// An allocation was refused.
    OutOfMemory,
}

impl From<InputFault> for Failure {
    ghost use Rattle.std.specs.Prelude.{◌≡◌};
    ghost use Rattle.wh_diagnostics.specs.Failures.{input_failure};

    ghost from_gives = { λ fault failure. failure ≡ input_failure fault };

    fn from(fault: InputFault) -> Failure {
        match fault {
            InputFault::Unreadable {
                path,
                entry,
                reason,
            } => Failure::Unreadable {
                dir: Text::new(path),
                entry,
                reason,
            },
            InputFault::OutOfMemory => Failure::OutOfMemory,
        }
    }
}

impl From<CommandFault> for Failure {
    ghost use Rattle.std.specs.Prelude.{◌≡◌};
    ghost use Rattle.wh_diagnostics.specs.Failures.{command_failure};

    ghost from_gives = { λ fault failure. failure ≡ command_failure fault };

    fn from(fault: CommandFault) -> Failure {
        match fault {
            CommandFault::Output => Failure::Output,
            CommandFault::OutOfMemory => Failure::OutOfMemory,
        }
    }
}

/// Returns the failure of a path that can't be read.
pub fn unreadable_path(path: Text, fault: FolderFault) -> Failure
    ensures unreadable { (reason : Reason) → fault ≡ FolderFault.Unreadable reason
        → result ≡ Failure.Unreadable path None reason }
    ensures memory { fault ≡ FolderFault.OutOfMemory → result ≡ Failure.OutOfMemory }
{
    match fault {
        FolderFault::Unreadable { reason } => Failure::Unreadable {
            dir: path,
            entry: None,
            reason,
        },
        FolderFault::OutOfMemory => Failure::OutOfMemory,
    }
}
