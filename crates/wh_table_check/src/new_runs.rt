//! Warns of new runs of tables that get no table.
ghost use Rattle.std.specs.Prelude.{◌≡◌, ◌&&◌, option_map, option_to_list, IfOk};
ghost use Rattle.wh_table.specs.Program.{is_table};
ghost use Rattle.wh_table_check.specs.NewRuns.{is_nothing, lacks_table, tableless_words, tableless};

use crate::finding::{TableFinding, finding_at};
use std::alloc::Global;
use wh_events::{OutOfMemory, Text};
use wh_rows::{CommandTemplate, Source};
use wh_table::TableWorkflow;
use wh_workflow::Workflow;

/// Returns whether a new run of this type takes its table from its input, and has none.
fn lacks_table(kind: &Text, source: Source) -> bool
    ensures { result ≡ lacks_table kind.now source }
{
    matches!(source, Source::Nothing) && TableWorkflow::handles(kind.get())
}

/// Returns the words of the warning for a command that starts a run of a table without a table, and
/// the id of a child.
fn tableless_words(template: &CommandTemplate<Text>) -> Option<(&'static str, &str)>
    ensures { option_map (λ said. (said.0.now, said.1.now)) result ≡ tableless_words template.now }
{
    match template {
        CommandTemplate::StartChild(id, kind, source) => {
            if lacks_table(kind, *source) {
                Some(("no source gives a table to the child ", id.get()))
            } else {
                None
            }
        }
        CommandTemplate::ContinueAsNew(kind, source) => {
            if lacks_table(kind, *source) {
                Some(("no source gives a table to the new run", ""))
            } else {
                None
            }
        }
        _ => None,
    }
}

/// Returns the warning for a command of the row of this number, if it starts a run of a table
/// without a table.
pub(crate) fn tableless_warning(
    alloc: Global,
    number: u64,
    template: &CommandTemplate<Text>,
) -> Result<Option<TableFinding>, OutOfMemory>
    ensures { IfOk result (λ found. option_to_list found ≡ tableless number template.now) }
{
    match tableless_words(template) {
        Some((words, id)) => Ok(Some(finding_at(alloc, number, words, id)?)),
        None => Ok(None),
    }
}
