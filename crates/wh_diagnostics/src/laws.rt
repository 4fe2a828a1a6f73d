//! What holds of the batches of any number of files, and of commands that read inputs one after the
//! other. Each law is the contract of a function that does nothing.
ghost use Rattle.wh_diagnostics.specs.Laws.{BatchesHoldAllFiles, BreaksOffQuietly, BreaksOffUnwritten, ReportsAreFew, ReportsEndEarly};

use crate::readings::InputReader;
use crate::walks::Visitor;

/// Progress is never reported after the last file: the batches after which it is reported leave
/// some files.
pub fn reports_end_early()
    ensures { ReportsEndEarly }
{}

/// Unless it is hidden, progress is reported after each batch but the last: one batch more than
/// those holds all files.
pub fn batches_hold_all_files()
    ensures { BatchesHoldAllFiles }
{}

/// Progress is reported 20 times at most, however many files there are.
pub fn reports_are_few()
    ensures { ReportsAreFew }
{}

/// A command that broke off reported nothing.
pub fn breaks_off_quietly<V: Visitor, R: InputReader>(visitor: &V)
    ensures { BreaksOffQuietly (V.visits visitor.now) R.gives }
{}

/// If a command that broke off writes nothing of an input, it wrote nothing at all, unless the
/// output failed.
pub fn breaks_off_unwritten<V: Visitor, R: InputReader>(visitor: &V)
    ensures { BreaksOffUnwritten (V.visits visitor.now) R.gives }
{}
