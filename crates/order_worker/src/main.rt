//! A program that serves orders, and the other samples that are tables of rows: live ones, recorded
//! ones, or, without a word, six orders in memory.
#![tactic(auto)]

use order::{Activities, Order, Till, has_arguments, serve_from_memory};
use row_samples::AllButOrder;
use std::process::ExitCode;
use std::{env, thread};
use wh_cli::{calls_over, no_memory, read_input, run_with_types};
use wh_workflow::Pair;

/// The registered workflow types.
const TYPES: &str = "Order, Nap, Family, Plan, Subscription, Booking";

/// The workflows of these types.
type Registered = Pair<Order, AllButOrder>;

/// Whether the program was started without a word. If the command line can't be read here, it was
/// not: the run reads it again.
fn is_alone<R: env::Env + AllocGlobal>(rt: &R) -> bool {
    match env::args(rt) {
        Ok(words) => match words.collect::<Vec<String>>(rt.alloc()) {
            Ok(words) => !has_arguments(words.as_slice()),
            Err(_) => false,
        },
        Err(_) => false,
    }
}

fn main(rt: HostRuntime) -> ExitCode {
    if is_alone(&rt) {
        return serve_from_memory(&rt);
    }
    let alloc = rt.alloc();
    let Ok((calls, theirs)) = calls_over(alloc, rt.stdout()) else {
        return no_memory(&rt);
    };
    run_with_types::<Registered, _, _, _, _, _>(
        &rt,
        TYPES,
        &*calls,
        || thread::spawn(&rt, move || read_input(&rt, alloc, &*theirs)).is_ok(),
        || Activities {
            rt: &rt,
            till: Till { alloc },
        },
    )
}
