//! Laws of explanations. Each law is the contract of a function that does nothing.
ghost use Rattle.wh_explain.specs.Laws.{EndsAsReplay, OneExplains};

use wh_workflow::Workflow;

/// A history has only one explanation.
pub fn one_explains<W: Workflow>()
    ensures { OneExplains W.program }
{}

/// The explanation of a history in place whose workflow type is registered ends as its replay does.
/// If the replay has a fault, the explanation ends at the task of the fault: the task is refused if
/// a command is invalid, else the first difference that it shows is that of the fault.
pub fn ends_as_replay<W: Workflow>()
    ensures { EndsAsReplay W.program }
{}
