//! What `explain --recorded` shows of paths.

ghost use Rattle.std.specs.Prelude.{◌≡◌, IfErr, IfOk, IsOk, None, Some, is_some};
ghost use Rattle.wh_console.specs.Inputs.{IsReadFrom};
ghost use Rattle.wh_diagnostics.specs.Listings.{AtPaths, FailsAtPaths, is_by_path};
ghost use Rattle.wh_diagnostics.specs.Walks.{HasWalked};
ghost use Rattle.wh_file_commands.specs.Overviews.{overviews};
ghost use Rattle.wh_file_commands.specs.Recorded.{HasNotShown, HasNotShownAll, HasShown, IsBadSelection, only_input};

use crate::overview::Overview;
use crate::view::view_input;
use std::alloc::Global;
use std::io::Write;
use std::rt::Runtime;
use wh_console::{Console, Format, Input, Origin, Selection};
use wh_diagnostics::{Failure, InputReader, Listed, all_inputs, walk};
use wh_events::Text;

/// Returns whether there are more paths than the first one.
fn is_by_path(more: &[Text]) -> bool
    ensures { result ≡ is_by_path more.now }
{
    !more.is_empty()
}

/// Returns whether inputs are just that of the only path, which is no folder.
fn is_single(inputs: &[Input], by_path: bool) -> bool
    ensures { result ≡ is_some (only_input by_path inputs.now) }
{
    if by_path {
        return false;
    }
    match inputs {
        [input] => !matches!(input.origin, Origin::Entry { .. }),
        _ => false,
    }
}

/// Returns the input of the only path, if that is no folder, or else the inputs.
fn only_input(inputs: Vec<Input>, by_path: bool) -> Result<Input, Vec<Input>>
    ensures single { IfOk result (λ input. only_input by_path inputs.items ≡ Some input) }
    ensures others { IfErr result (λ others. (only_input by_path inputs.items ≡ None) × (others ≡ inputs)) }
{
    if !is_single(inputs.as_slice(), by_path) {
        return Err(inputs);
    }
    let mut only = inputs;
    match only.pop() {
        Some(input) => Ok(input),
        None => Err(only),
    }
}

/// Returns that no tasks can be selected in an overview.
fn bad_selection(alloc: Global) -> Failure
    ensures { IsBadSelection result }
{
    let text = "error: --all, --around and --last take one file\n";
    match String::from_str(alloc, text) {
        Ok(text) => Failure::BadLine {
            text: Text::new(text),
        },
        Err(_) => Failure::OutOfMemory,
    }
}

/// Writes the overview of inputs, unless tasks are selected.
fn show_all<R: InputReader + AllocGlobal, O: Write, E: Write>(
    rt: &R,
    listed: Listed,
    selection: Option<Selection>,
    format: Format,
    console: &mut Console<'_, O, E>,
) -> Result<u8, Failure>
    ensures shown { IfOk result (HasWalked (overviews format) R.gives listed.inputs.items listed.left_out
        console.old console.new) }
    ensures unselected { IsOk result → selection ≡ None }
    ensures stopped { IfErr result
        (HasNotShownAll R.gives selection format listed.inputs.items console.old console.new) }
{
    match selection {
        None => walk(&Overview { format }, rt, listed, console),
        Some(_) => {
            drop(listed);
            Err(bad_selection(rt.alloc()))
        }
    }
}

/// Shows what was listed: the file of the only path in full, and all else in an overview.
fn show_listed<R: InputReader + AllocGlobal, O: Write, E: Write>(
    rt: &R,
    listed: Listed,
    by_path: bool,
    selection: Option<Selection>,
    format: Format,
    console: &mut Console<'_, O, E>,
) -> Result<u8, Failure>
    ensures shown { IfOk result (HasShown R.gives by_path selection format listed.inputs.items listed.left_out
        console.old console.new) }
    ensures stopped { IfErr result (HasNotShown R.gives by_path selection format listed.inputs.items
        console.old console.new) }
{
    let Listed { inputs, left_out } = listed;
    match only_input(inputs, by_path) {
        Ok(input) => view_input(rt, input, selection, format, console),
        Err(inputs) => show_all(rt, Listed { inputs, left_out }, selection, format, console),
    }
}

/// Shows what is recorded in the histories at paths, with nothing replayed. A folder stands for its
/// files whose names end in `.json`; what is left out of it is reported first, or that it has no
/// file.
///
/// If there is one path, and it names a file or the standard input, that history is shown in full:
/// the tasks that are selected, or else all, in text with those that repeat others folded. The status
/// is 0.
///
/// Otherwise each file has a line, in the order of the paths: its run, as
/// `wh_explain_report::write_run_as` writes it, or why it has none. Each is read, and its line
/// written, before the next one is read. The last line says how many runs have each status. The
/// status is 0 if each file is a history and no file is skipped, and else 1.
///
/// `Unreadable` if nothing can be read at a path, or at the only one. Of a history that is shown in
/// full, `NotJson` if it is not JSON, and `NotViewed` if it has no list of events for another
/// reason. `BadLine` if tasks are selected in an overview. `Output` if the report can't be written.
/// Other than `OutOfMemory` there is no failure but these. After a failure nothing was reported but
/// what is left out of folders and folders without a file. If it is neither `Output` nor, in an
/// overview, `OutOfMemory`, nothing was written; in an overview for which there was no memory, the
/// lines of the files before.
pub fn view_paths<R: Runtime + AllocGlobal, O: Write, E: Write>(
    rt: &R,
    first: Text,
    more: Vec<Text>,
    selection: Option<Selection>,
    format: Format,
    console: &mut Console<'_, O, E>,
) -> Result<u8, Failure>
    ensures shown { IfOk result (AtPaths (HasShown IsReadFrom (is_by_path more.items) selection format)
        first more.items console.old console.new) }
    ensures stopped { IfErr result (FailsAtPaths (HasNotShown IsReadFrom (is_by_path more.items) selection format)
        first more.items console.old console.new) }
{
    let by_path = is_by_path(more.as_slice());
    let listed = all_inputs(rt, first, more, console)?;
    show_listed::<R, O, E>(rt, listed, by_path, selection, format, console)
}
