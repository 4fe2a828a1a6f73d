//! Reads inputs one after the other, for a command that says what it makes of them.

ghost use Rattle.std.specs.Prelude.{IfErr, IfOk};
ghost use Rattle.wh_console.specs.Inputs.{IsReadFrom};
ghost use Rattle.wh_diagnostics.specs.Listings.{AtPaths, FailsAtPaths};
ghost use Rattle.wh_diagnostics.specs.Walks.{AreTold, HasBrokenOff, HasWalked};

use crate::failures::Failure;
use crate::listing::{Listed, all_inputs};
use crate::readings::InputReader;
use std::alloc::Global;
use std::io::Write;
use std::rt::Runtime;
use wh_console::{Console, Input};
use wh_events::Text;

/// What a command makes of inputs: of each as it is read, and of all in the end.
pub trait Visitor {
    ghost use Rattle.std.specs.Prelude.{IfErr, IfOk};
    ghost use Rattle.wh_diagnostics.specs.Failures.{IsWriteFailure};
    ghost use Rattle.wh_diagnostics.specs.Printing.{IsRefused};
    ghost use Rattle.wh_diagnostics.specs.Walks.{IsTold, Visits};

    /// What is kept of an input.
    type Kept: Drop;

    /// What the command keeps and writes of each input, why it may stop at one, and what it ends
    /// with.
    ghost visits: { Self → Visits Self.Kept };

    /// Reads an input, writes what there is to write of it, and returns what is kept. The failures
    /// are those for which the command stops at an input. After one nothing was reported, and
    /// nothing was written unless it is `Output`.
    fn visit<R: InputReader + AllocGlobal, O: Write, E: Write>(
        &self,
        rt: &R,
        input: Input,
        console: &mut Console<'_, O, E>,
    ) -> Result<Self::Kept, Failure>
        ensures told { IfOk result (IsTold ((visits self.now).tells R.gives input) console.old console.new) }
        ensures refused { IfErr result (IsRefused console.old console.new) }
        ensures why { IfErr result ((visits self.now).stops input) };

    /// Writes what there is to write of all inputs, by what was kept of them and whether files are
    /// lacking, puts it out, and returns the status. `Output` if it can't be written; other than
    /// `OutOfMemory` there is no failure but this. After a failure nothing was reported, and nothing
    /// was written unless it is `Output`.
    fn finish<O: Write, E: Write>(
        &self,
        alloc: Global,
        all: Vec<Self::Kept>,
        lacks: bool,
        console: &mut Console<'_, O, E>,
    ) -> Result<u8, Failure>
        ensures ended { IfOk result ((visits self.now).ends all.items lacks console.old console.new) }
        ensures refused { IfErr result (IsRefused console.old console.new) }
        ensures why { IfErr result IsWriteFailure };
}

/// Visits inputs one after the other, and returns what is kept of them, in their order.
fn visit_all<V: Visitor, R: InputReader + AllocGlobal, O: Write, E: Write>(
    visitor: &V,
    rt: &R,
    inputs: Vec<Input>,
    console: &mut Console<'_, O, E>,
) -> Result<Vec<V::Kept>, Failure>
    ensures told { IfOk result (λ all.
        AreTold ((V.visits visitor.now).tells R.gives) inputs.items all.items console.old console.new) }
    ensures stopped { IfErr result
        (HasBrokenOff (V.visits visitor.now) R.gives inputs.items console.old console.new) }
{
    let mut all = Vec::new(rt.alloc());
    for input in inputs {
        let own = visitor.visit(rt, input, console)?;
        let Ok(()) = all.push(own) else {
            return Err(Failure::OutOfMemory);
        };
    }
    Ok(all)
}

/// Visits what was listed, in its order, each input before the next one is read, and then ends as
/// the command does, with its status.
pub fn walk<V: Visitor, R: InputReader + AllocGlobal, O: Write, E: Write>(
    visitor: &V,
    rt: &R,
    listed: Listed,
    console: &mut Console<'_, O, E>,
) -> Result<u8, Failure>
    ensures walked { IfOk result (HasWalked (V.visits visitor.now) R.gives listed.inputs.items listed.left_out
        console.old console.new) }
    ensures stopped { IfErr result
        (HasBrokenOff (V.visits visitor.now) R.gives listed.inputs.items console.old console.new) }
{
    let lacks = listed.lacks_files(false);
    let all = visit_all(visitor, rt, listed.inputs, console)?;
    visitor.finish(rt.alloc(), all, lacks, console)
}

/// Visits what is at paths, in their order. What is left out of folders is reported first, or that
/// one has no file.
///
/// `Unreadable` if nothing can be read at a path; nothing was written then, as with `OutOfMemory`
/// before the first input is read. Other failures are those of the command. After a failure nothing
/// was reported but what is left out and folders without a file.
pub fn walk_paths<V: Visitor, R: Runtime + AllocGlobal, O: Write, E: Write>(
    visitor: &V,
    rt: &R,
    first: Text,
    more: Vec<Text>,
    console: &mut Console<'_, O, E>,
) -> Result<u8, Failure>
    ensures walked { IfOk result (AtPaths (HasWalked (V.visits visitor.now) IsReadFrom) first more.items
        console.old console.new) }
    ensures stopped { IfErr result (FailsAtPaths (HasBrokenOff (V.visits visitor.now) IsReadFrom) first more.items
        console.old console.new) }
{
    let listed = all_inputs(rt, first, more, console)?;
    walk(visitor, rt, listed, console)
}
