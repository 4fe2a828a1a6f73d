//! Why a policy file is refused, as text.

ghost use Rattle.std.specs.Prelude.{Some};
ghost use Rattle.wh_work.specs.PolicyFaults.{policy_fault_text};

use std::fmt;
use wh_policies::PolicyFault;
use wh_tester::Shown;

/// The fault of a policy file that is refused, as text: what is wrong with it, and the key and the
/// line of that. Of each name the first 255 characters are shown, with `?` for each that is not
/// printable.
#[derive(Drop)]
pub struct PolicyFaultText<'a>(pub &'a PolicyFault);

impl fmt::Display for PolicyFaultText<'_> {
    ghost output = { λ text. Some (policy_fault_text text.0.now) };

    fn fmt<W: fmt::Write>(&self, f: &mut fmt::Formatter<W>) -> fmt::Result {
        match self.0 {
            PolicyFault::TooLong => write!(f, "file too long"),
            PolicyFault::NoText => write!(f, "not UTF-8 text"),
            PolicyFault::NoToml { line, reason } => {
                let reason = Shown(reason.get());
                write!(f, "not TOML at line {line}: {reason}")
            }
            PolicyFault::UnknownKey { key, line } => {
                let key = Shown(key.get());
                write!(f, "unknown key {key} at line {line}")
            }
            PolicyFault::BadValue { key, line } => {
                let key = Shown(key.get());
                write!(f, "bad value of {key} at line {line}")
            }
            PolicyFault::Above { key, limit, line } => {
                let (key, limit) = (Shown(key.get()), limit.get());
                write!(f, "{key} above {limit} at line {line}")
            }
            PolicyFault::OutOfMemory => write!(f, "out of memory"),
        }
    }
}
