//! Files are worked on in threads.

ghost use Rattle.std.specs.Prelude.{Err, IfErr, IfOk, Ok};
ghost use Rattle.wh_file_faults.specs.Made.{IsOfOne};
ghost use Rattle.wh_service.specs.Made.{AreMade};

use crate::file_faults::{FileFault, split_faults};
use rayon::prelude::*;
use std::alloc::Global;
use std::thread::Threads;
use wh_events::OutOfMemory;

/// What is made of files, in their order, whichever is done first, and apart from it what is
/// reported of files, or the fault of one of which nothing can be made. `rayon` spreads the files
/// over threads, down to one file each. `OutOfMemory` if there was no memory for the lists.
pub(crate) fn all_made<
    T: Send + Drop,
    U: Send + Drop,
    E: Send + Drop,
    F: Fn(T) -> Result<(U, Option<FileFault>), E> + Copy + Send + Sync,
    R: Threads + Sync,
>(
    rt: &R,
    alloc: Global,
    files: Vec<T>,
    make: F,
) -> Result<Result<(Vec<U>, Vec<FileFault>), E>, OutOfMemory>
    requires { F.IsAlwaysCallable make }
    ensures made { IfOk result (λ told. IfOk told (λ parts.
        AreMade (λ file both. F.post make file (Ok both)) files.items parts.0.items parts.1.items)) }
    ensures fault { IfOk result (λ told. IfErr told
        (IsOfOne (λ file fault. F.post make file (Err fault)) files.items)) }
{
    let Ok(told) = files
        .into_par_iter()
        .with_min_len(1)
        .map(make)
        .collect::<Result<Vec<(U, Option<FileFault>)>, E>>(rt, alloc)
    else {
        return Err(OutOfMemory);
    };
    match told {
        Ok(told) => Ok(Ok(split_faults(alloc, told)?)),
        Err(fault) => Ok(Err(fault)),
    }
}
