//! Serves orders in memory: two workers share a host, each with a source of their tasks.

use crate::inbox::Inbox;
use crate::orders::add_order;
use crate::till::Till;
use crate::workflow::Order;
use std::alloc::Global;
use std::io;
use std::io::Print;
use std::process::ExitCode;
use std::sync::Wait;
use std::thread::Threads;
use wh_events::OutOfMemory;
use wh_host::{Config, OpenFault};
use wh_poll::{HostEnd, NoObserver, WorkerSetup, run_host};
use wh_tasks::{NoHeartbeat, WithHeartbeat};

/// How many workers there are, each with a thread.
const WORKERS: usize = 2;

/// How many orders there are.
const ORDERS: u64 = 6;

/// The setup of a worker of orders.
type OrderSetup = WorkerSetup<Inbox, WithHeartbeat<Till, NoHeartbeat>, NoObserver>;

/// What a host of orders leaves.
type OrderEnd = HostEnd<Inbox, WithHeartbeat<Till, NoHeartbeat>, NoObserver>;

/// Returns the setup of the worker at a place, with every second order.
fn setup_at(alloc: Global, place: usize) -> Result<OrderSetup, OutOfMemory> {
    let mut source = Inbox::new(alloc);
    for order in 1..=ORDERS {
        if order % WORKERS as u64 == place as u64 {
            add_order(&mut source, alloc, order)?;
        }
    }
    let turns = source.turns();
    Ok(WorkerSetup {
        source,
        handler: WithHeartbeat {
            handler: Till { alloc },
            heartbeat: NoHeartbeat,
        },
        observer: NoObserver,
        turns,
    })
}

/// Returns the setups of all workers.
fn setups(alloc: Global) -> Result<Vec<OrderSetup>, OutOfMemory> {
    let mut setups = Vec::new(alloc);
    for place in 0..WORKERS {
        setups.push(setup_at(alloc, place)?)?;
    }
    Ok(setups)
}

/// Serves all orders.
fn serve<R: Threads + Wait + Sync>(rt: &R, alloc: Global) -> Result<OrderEnd, OpenFault> {
    let config = Config {
        workflow_slots: 10,
        activity_slots: 10,
        cache: 100,
        cache_events: 0,
        seats: WORKERS,
    };
    let setups = setups(alloc)?;
    run_host::<Order, R, Inbox, WithHeartbeat<Till, NoHeartbeat>, NoObserver>(
        rt, alloc, config, setups,
    )
}

/// Prints what each worker and the host have done.
fn print<R: Print>(rt: &R, end: &OrderEnd) -> io::Result<()> {
    for (place, worker) in end.workers.iter().enumerate() {
        let tasks = worker.counted.taken;
        let answers = worker.source.count_answers();
        println!(rt; "worker {place}: {tasks} tasks, {answers} answers")?;
    }
    let (taken, completed) = (end.totals.taken, end.totals.completed);
    let (failed, in_hand) = (end.totals.failed, end.totals.in_hand);
    println!(rt; "taken {taken}, completed {completed}, failed {failed}, in hand {in_hand}")
}

/// Serves six orders in memory, and prints how that ended. The exit status is 0 if that could be
/// printed.
pub fn serve_from_memory<R: Threads + Wait + Print + Eprint + AllocGlobal + Sync>(
    rt: &R,
) -> ExitCode {
    let end = match serve(rt, rt.alloc()) {
        Ok(end) => end,
        Err(fault) => {
            let _ = eprintln!(rt; "order_worker: {fault:?}");
            return ExitCode::from(1);
        }
    };
    match print(rt, &end) {
        Ok(()) => ExitCode::from(0),
        Err(_) => ExitCode::from(1),
    }
}
