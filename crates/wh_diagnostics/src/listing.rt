//! What paths name.

ghost use Rattle.std.specs.Prelude.{◌≡◌, ◌==◌, ◌||◌, ◌∷◌, IfErr, IfOk, false, length, not};
ghost use Rattle.wh_console.specs.Consoles.{Reported};
ghost use Rattle.wh_diagnostics.specs.Listings.{AreListed, AreUnlisted, IsListed, IsUnreadAt, is_by_path, lacks_files, listing_lines};

use crate::diagnostics::Diagnostic;
use crate::failures::{Failure, unreadable_path};
use std::io;
use std::io::Write;
use std::rt::Files;
use wh_console::{Console, Input, Listing, folder_inputs, inputs_at};
use wh_events::Text;

/// What is to be read at paths.
#[derive(Drop)]
pub struct Listed {
    /// The inputs, in the order of their paths.
    pub inputs: Vec<Input>,
    /// Whether files are left out, since their names are no UTF-8.
    pub left_out: bool,
}

/// Reports which files of a path are left out, or that it has no file, if it has none.
fn report_listing<O: Write, E: Write>(
    path: Text,
    listing: Listing,
    console: &mut Console<'_, O, E>,
) -> Listed
    ensures inputs { result.inputs ≡ listing.inputs }
    ensures left { result.left_out ≡ not (length listing.bad_names.items == 0) }
    ensures reported { Reported console.old console.new
        (listing_lines path listing.inputs.items listing.bad_names.items) }
{
    let Listing { inputs, bad_names } = listing;
    let left_out = !bad_names.is_empty();
    if left_out {
        console.report(Diagnostic::BadNames {
            dir: path,
            names: bad_names,
        });
    } else if inputs.is_empty() {
        console.report(Diagnostic::NoFiles { dir: path });
    }
    Listed { inputs, left_out }
}

/// Returns the files of a folder that are to be read. What is left out is reported, or that there
/// is no file. `Unreadable` if the folder can't be listed; nothing is reported then.
pub fn folder_of<R: Files + AllocGlobal + Clone + Drop, O: Write, E: Write>(
    rt: &R,
    dir: Text,
    console: &mut Console<'_, O, E>,
) -> Result<Listed, Failure>
    ensures listed { IfOk result (λ listed.
        IsListed false dir listed.inputs.items listed.left_out console.old console.new) }
    ensures refused { IfErr result (λ failure. IsUnreadAt dir failure × (console.new ≡ console.old)) }
{
    let listing = match folder_inputs(rt, dir.get(), false) {
        Ok(listing) => listing,
        Err(fault) => return Err(unreadable_path(dir, fault)),
    };
    Ok(report_listing(dir, listing, console))
}

/// Returns what is to be read at a path. What is left out is reported, or that there is no file.
fn inputs_of<R: Files + io::Input + AllocGlobal + Clone + Drop, O: Write, E: Write>(
    rt: &R,
    path: Text,
    by_path: bool,
    console: &mut Console<'_, O, E>,
) -> Result<Listed, Failure>
    ensures listed { IfOk result (λ listed.
        IsListed by_path path listed.inputs.items listed.left_out console.old console.new) }
    ensures refused { IfErr result (λ failure. IsUnreadAt path failure × (console.new ≡ console.old)) }
{
    let listing = match inputs_at(rt, path.get(), by_path) {
        Ok(listing) => listing,
        Err(fault) => return Err(unreadable_path(path, fault)),
    };
    Ok(report_listing(path, listing, console))
}

/// Whether one of two holds.
fn is_either(first: bool, second: bool) -> bool
    ensures { result ≡ (first || second) }
{
    first || second
}

/// Returns what is to be read at paths, in their order. If there is one path alone, files are
/// called without their folders. `Unreadable` if nothing can be read at one of them; what is left
/// out of those before it has been reported then, and nothing more, as with `OutOfMemory`.
pub fn all_inputs<R: Files + io::Input + AllocGlobal + Clone + Drop, O: Write, E: Write>(
    rt: &R,
    first: Text,
    more: Vec<Text>,
    console: &mut Console<'_, O, E>,
) -> Result<Listed, Failure>
    ensures listed { IfOk result (λ listed. AreListed (is_by_path more.items) (first ∷ more.items)
        listed.inputs.items listed.left_out console.old console.new) }
    ensures refused { IfErr result
        (AreUnlisted (is_by_path more.items) (first ∷ more.items) console.old console.new) }
{
    let by_path = !more.is_empty();
    let own = inputs_of(rt, first, by_path, console)?;
    let (mut inputs, mut left_out) = (own.inputs, own.left_out);
    for path in more {
        let others = inputs_of(rt, path, by_path, console)?;
        let mut other_inputs = others.inputs;
        let Ok(()) = inputs.append(&mut other_inputs) else {
            return Err(Failure::OutOfMemory);
        };
        let left = is_either(left_out, others.left_out);
        left_out = left;
    }
    Ok(Listed { inputs, left_out })
}

impl Listed {
    /// Whether files are lacking: some are left out, or there have to be files, and there is none.
    pub fn lacks_files(&self, required: bool) -> bool
        ensures lacks { result ≡ lacks_files self.now.left_out required self.now.inputs.items }
    {
        self.left_out || (required && self.inputs.is_empty())
    }
}
