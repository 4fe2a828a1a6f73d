//! The policies that options ask for.

ghost use Rattle.std.specs.Prelude.{IfErr, IfOk};
ghost use Rattle.wh_command_line.specs.Options.{IsWithinWorkLimits};
ghost use Rattle.wh_policies.specs.Policies.{IsRefused};
ghost use Rattle.wh_work.specs.Policies.{AreOfFile, ArePolicies, IsPolicyFault};

use std::alloc::{AllocError, Global};
use std::rt::Files;
use wh_command_line::WorkOptions;
use wh_console::{InputFault, Origin, read_input};
use wh_events::Text;
use wh_policies::{Policies, PolicyFault, read_policies};

/// A file that gives no policies, and why not.
#[derive(Debug, Drop)]
pub struct BadPolicies {
    /// The path of the file.
    pub path: Text,
    /// Why it gives none.
    pub fault: PolicyFault,
}

/// Why there is no plan to serve live tasks.
#[derive(Debug, Drop)]
pub enum PlanFault {
    /// The file of the policies can't be read.
    Unread {
        /// Why not.
        fault: InputFault,
    },
    /// The file of the policies gives none.
    BadPolicies {
        /// The file, and why not.
        bad: BadPolicies,
    },
    /// What is at the path of the file of the counts, or at that at which they are written first,
    /// is no regular file.
    BadMetrics {
        /// What is wrong with the path. The text ends its own line.
        text: Text,
    },
    /// There was no memory. This can come in place of every plan and of every fault.
    OutOfMemory,
}

impl From<AllocError> for PlanFault {
    ghost use Rattle.std.specs.Prelude.{◌≡◌};
    ghost use Rattle.wh_work.specs.declared.policies.PlanFault.{PlanFault};

    ghost from_gives = { λ _ fault. fault ≡ PlanFault.OutOfMemory };

    fn from(_refused: AllocError) -> PlanFault {
        PlanFault::OutOfMemory
    }
}

/// The bytes of the file at a path.
fn bytes_at<R: Files + AllocGlobal>(rt: &R, path: &str) -> Result<Vec<u8>, PlanFault>
    ensures { IfErr result IsPolicyFault }
{
    let path = String::from_str(rt.alloc(), path)?;
    match read_input(rt, Origin::File { path }) {
        Ok(bytes) => Ok(bytes),
        Err(InputFault::OutOfMemory) => Err(PlanFault::OutOfMemory),
        Err(fault) => Err(PlanFault::Unread { fault }),
    }
}

/// That the file at a path gives no policies, since its bytes have a fault.
fn bad_policies(alloc: Global, path: &str, bytes: &[u8], fault: PolicyFault) -> PlanFault
    requires { IsRefused bytes.now fault }
    ensures { IsPolicyFault result }
{
    let Ok(path) = String::from_str(alloc, path) else {
        drop(fault);
        return PlanFault::OutOfMemory;
    };
    let bad = BadPolicies {
        path: Text::new(path),
        fault,
    };
    match bad.fault {
        PolicyFault::OutOfMemory => PlanFault::OutOfMemory,
        _ => PlanFault::BadPolicies { bad },
    }
}

/// The policies that the file at a path gives, beside these seconds for an attempt of each activity
/// and this number of attempts.
fn policies_at<R: Files + AllocGlobal>(
    rt: &R,
    path: &str,
    seconds: u32,
    attempts: u32,
) -> Result<Policies, PlanFault>
    ensures read { IfOk result (AreOfFile seconds attempts) }
    ensures fault { IfErr result IsPolicyFault }
{
    let bytes = bytes_at(rt, path)?;
    match read_policies(rt.alloc(), bytes.as_slice(), seconds, attempts) {
        Ok(policies) => Ok(policies),
        Err(fault) => Err(bad_policies(rt.alloc(), path, bytes.as_slice(), fault)),
    }
}

/// The policies that the options ask for: those of their file, if they name one. If that does not
/// say another thing, or there is none, an activity has a time for one attempt and a number of
/// attempts.
pub(crate) fn policies_of<R: Files + AllocGlobal>(
    rt: &R,
    options: &WorkOptions,
) -> Result<Policies, PlanFault>
    requires { IsWithinWorkLimits options.now }
    ensures read { IfOk result (ArePolicies options.now) }
    ensures fault { IfErr result IsPolicyFault }
{
    let seconds = options.activity_timeout as u32;
    let attempts = options.activity_attempts as u32;
    match &options.policies {
        Some(path) => policies_at(rt, path.get(), seconds, attempts),
        None => Ok(Policies::plain(rt.alloc(), seconds, attempts)),
    }
}
