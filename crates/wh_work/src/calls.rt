//! The calls of live tasks.

use std::alloc::Global;
use std::io::Write;
use std::sync::Arc;
use wh_events::OutOfMemory;
use wh_rpc::Calls;

/// Calls of live tasks that go out on a stream, for the program and for the thread that listens to
/// their responses. `OutOfMemory` if there was no memory for them.
pub fn calls_over<O: Write + Drop>(
    alloc: Global,
    out: O,
) -> Result<(Arc<Calls<O>>, Arc<Calls<O>>), OutOfMemory> {
    let Ok(calls) = Arc::new(alloc, Calls::new(alloc, out)) else {
        return Err(OutOfMemory);
    };
    let theirs = Arc::try_clone(&calls)?;
    Ok((calls, theirs))
}
