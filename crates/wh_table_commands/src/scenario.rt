//! Finds the scenario of a table.

ghost use Rattle.std.specs.Prelude.{◌⊎◌, IfErr, IfOk, string_bytes};
ghost use Rattle.wh_diagnostics.specs.Failures.{IsReadFailure};
ghost use Rattle.wh_table_commands.specs.Scenarios.{IsBeside, IsInputBeside, IsNoText, IsOriginBeside, IsScenario, IsTextOf, LacksScenario};

use std::alloc::{AllocError, Global};
use wh_console::{Input, Origin};
use wh_diagnostics::{Failure, InputReader, file_from};
use wh_events::Text;

/// Returns a path with `.txt` instead of `.json` at its end, or with `.txt` added.
fn beside(alloc: Global, path: &str) -> Result<String, AllocError>
    ensures { IfOk result (λ text. IsBeside path.now (string_bytes text)) }
{
    let stem = path.strip_suffix(".json").unwrap_or(path);
    format!(in alloc; "{stem}.txt")
}

/// Returns where the scenario beside a table comes from.
fn origin_beside(alloc: Global, table: &Origin) -> Result<Origin, AllocError>
    ensures { IfOk result (IsOriginBeside table.now) }
{
    match table {
        Origin::File { path } => Ok(Origin::File {
            path: beside(alloc, path.as_str())?,
        }),
        Origin::Entry { dir, name } => Ok(Origin::Entry {
            dir: String::from_str(alloc, dir.as_str())?,
            name: beside(alloc, name.as_str())?,
        }),
        Origin::StandardInput { .. } => Ok(Origin::File {
            path: beside(alloc, "-")?,
        }),
    }
}

/// Returns the input beside that of a table.
pub(crate) fn input_beside(alloc: Global, table: &Input) -> Result<Input, AllocError>
    ensures { IfOk result (IsInputBeside table.now) }
{
    Ok(Input {
        name: beside(alloc, table.name.as_str())?,
        origin: origin_beside(alloc, &table.origin)?,
    })
}

/// Reads an input as a text.
fn text_of<R: InputReader>(rt: &R, input: Input) -> Result<Text, Failure>
    ensures read { IfOk result (IsTextOf R.gives input) }
    ensures why { IfErr result (λ failure. IsReadFailure failure ⊎ IsNoText R.gives input failure) }
{
    let (name, bytes) = file_from(rt, input)?;
    match String::from_utf8(bytes) {
        Ok(text) => Ok(Text::new(text)),
        Err(_) => Err(Failure::NotText {
            file: Text::new(name),
        }),
    }
}

/// Returns the scenario that is given, or else reads the one beside the table.
pub(crate) fn scenario_of<R: InputReader>(
    rt: &R,
    beside: Input,
    given: &Option<Text>,
) -> Result<Text, Failure>
    ensures scenario { IfOk result (IsScenario R.gives beside given.now) }
    ensures why { IfErr result (LacksScenario R.gives beside given.now) }
{
    let Some(text) = given else {
        return text_of(rt, beside);
    };
    match text.try_copy() {
        Ok(copy) => Ok(copy),
        Err(_) => Err(Failure::OutOfMemory),
    }
}
