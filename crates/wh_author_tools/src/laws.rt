//! What holds for random sources. Each law is the contract of a function without a body.
ghost use Rattle.wh_author_tools.specs.Sources.{JobsKeepTheSource};
ghost use Rattle.wh_author_tools.specs.Scenarios.{FollowsEachLine};

use wh_workflow::Workflow;

/// The jobs of a run make the same source as its first jobs, whatever jobs come later. So the same
/// jobs give the same numbers and ids: in the task that draws them, in each replay of it, and in
/// the replay of every longer history.
pub fn later_jobs_keep_the_source()
    ensures { JobsKeepTheSource }
{}

/// A scenario has no fault exactly if the workflow type is registered, and at each line that is not
/// blank a run gives the commands that the line expects, as text.
pub fn follows_each_line<W: Workflow>()
    ensures { FollowsEachLine W.program }
{}
