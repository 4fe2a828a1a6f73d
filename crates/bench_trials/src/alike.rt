//! Compares the answers that two lists of sources were sent.
ghost use Rattle.std.specs.Prelude.{◌≡◌, IsTrue, map};

use crate::same::same_all;
use wh_recorded::ScriptSource;

/// Returns whether each source was sent the same as the other one at its place. Answers to
/// activities are never the same.
pub fn are_alike(sources: &[ScriptSource], others: &[ScriptSource]) -> bool
    ensures { IsTrue result → map (λ source. source.answers) sources.now ≡ map (λ source. source.answers) others.now }
{
    if sources.len() != others.len() {
        return false;
    }
    for place in 0..sources.len() {
        if !same_all(sources[place].answers(), others[place].answers()) {
            return false;
        }
    }
    true
}
