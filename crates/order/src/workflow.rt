//! The workflow: an order is charged for, held for a day, and shipped.

ghost use Rattle.std.specs.Prelude.{◌≡◌, [], ◌∷◌, pos, negsuc, codes, IfOk};
ghost use Rattle.order.specs.Order.{calling_off, order, order_after, order_gives, order_lawful, parcel_type};
ghost use Rattle.order.specs.Order.{charging_gives, held_gives, shipping_gives};
ghost use Rattle.order.specs.Order.{charging_after, held_after, shipping_after};
ghost use Rattle.wh_workflow.specs.declared.command.Command.TheVariants.{StartActivity, StartTimer, StartChild};
ghost use Rattle.wh_workflow.specs.declared.command.Command.TheVariants.{Ask, Complete, Fail};

use crate::naming::parcel_id;
use std::alloc::Global;
use std::mem;
use wh_events::{Items, OutOfMemory, Payload, Text};
use wh_workflow::{
    ActivityEnd, ChildEnd, Command, Job, Meter, Workflow, give_all, no_payloads, text_of, texts_of,
};

/// Charges for an order, holds it for a day, during which a signal cancels it, and ships it.
///
/// | State | Job | Gives | Then |
/// |---|---|---|---|
/// | charging | `Start` | `StartActivity{charge, ChargeCard}` with its input | charging, ID known |
/// | charging | `Activity` `charge`, `Completed` | `StartTimer{hold, 86400}` | held |
/// | charging | `Activity` `charge`, another end | `Fail{charge}` | closed |
/// | held | `Signal` `cancel` | `CancelTimer{hold}`, `Complete` without a result | closed |
/// | held | `TimerFired` of `hold` | `Ask{tracked, -1, 1}` | shipping |
/// | shipping | `Version` of `tracked`, -1 | `StartChild{ID, Ship}` | shipping |
/// | shipping | `Version` of `tracked`, another | `StartChild{ID, ShipTracked}` | shipping |
/// | shipping | `Child` ID, `Completed` with a result | `Complete` with it | closed |
/// | shipping | `Child` ID, another end | `Fail{parcel}` | closed |
///
/// Other jobs change nothing and give nothing. The child is started without an input.
///
/// The query `status` returns the state as JSON: `"charging"`, `"held"`, `"shipping"` or
/// `"closed"`.
///
/// The first payload of the input is the price. The second one names the order: with the JSON
/// string `"order-1"`, ID is `parcel-order-1`. If there is no second payload, or it is not such a
/// string, ID is `parcel`, and only one such child can be open at a time, over all runs. A string
/// with an escape (a backslash) is not a name.
pub struct Order;

/// The state of an order, with the workflow id of its child: the one that it has, or will start.
#[derive(Debug, Drop)]
pub enum OrderState {
    /// The card is being charged.
    Charging {
        /// The id of its child.
        parcel: Text,
    },
    /// The order is held: a signal can cancel it until the timer fires.
    Held {
        /// The id of its child.
        parcel: Text,
    },
    /// The child that ships the parcel is starting or running.
    Shipping {
        /// The id of its child.
        parcel: Text,
    },
    /// The run is closed.
    Closed,
}

/// How many seconds an order is held: a day.
const HOLD: u64 = 86_400;

/// Returns one command, as a list.
fn one(alloc: Global, command: Command) -> Result<Vec<Command>, OutOfMemory>
    ensures { IfOk result (λ given. given.items ≡ command ∷ []) }
{
    Ok(vec![in alloc; command]?)
}

/// Charges for the order.
fn charge(alloc: Global, input: &Items<Payload>) -> Result<Vec<Command>, OutOfMemory>
    ensures { IfOk result (λ given. given.items ≡ StartActivity (codes "charge") (codes "ChargeCard") input.now ∷ []) }
{
    let input = input.try_copy()?;
    let (id, activity) = texts_of(alloc, "charge", "ChargeCard")?;
    one(
        alloc,
        Command::StartActivity {
            id,
            activity,
            input,
        },
    )
}

/// Holds the order.
fn hold(alloc: Global) -> Result<Vec<Command>, OutOfMemory>
    ensures { IfOk result (λ given. given.items ≡ StartTimer (codes "hold") 86_400 ∷ []) }
{
    let id = text_of(alloc, "hold")?;
    one(alloc, Command::StartTimer { id, seconds: HOLD })
}

/// Cancels the order.
fn call_off(alloc: Global) -> Result<Vec<Command>, OutOfMemory>
    ensures { IfOk result (λ given. given.items ≡ calling_off) }
{
    let cancel = Command::CancelTimer {
        id: text_of(alloc, "hold")?,
    };
    let complete = Command::Complete {
        result: no_payloads(alloc),
    };
    Ok(vec![in alloc; cancel, complete]?)
}

/// Asks for the version of the change `tracked`: parcels of runs that began before the change are
/// not tracked.
fn ask(alloc: Global) -> Result<Vec<Command>, OutOfMemory>
    ensures { IfOk result (λ given. given.items ≡ Ask (codes "tracked") (negsuc 0) (pos 1) ∷ []) }
{
    let change_id = text_of(alloc, "tracked")?;
    one(
        alloc,
        Command::Ask {
            change_id,
            min: -1,
            max: 1,
        },
    )
}

/// Ships the order, depending on the version of the change.
fn ship(alloc: Global, parcel: &Text, version: i32) -> Result<Vec<Command>, OutOfMemory>
    ensures { IfOk result (λ given. given.items ≡ StartChild parcel.now (parcel_type version) [] ∷ []) }
{
    let workflow = if version == -1 { "Ship" } else { "ShipTracked" };
    let (workflow_id, workflow) = texts_of(alloc, parcel.get(), workflow)?;
    one(
        alloc,
        Command::StartChild {
            workflow_id,
            workflow,
            input: no_payloads(alloc),
        },
    )
}

/// Completes the run with the result of its child.
fn complete(alloc: Global, payloads: &Items<Payload>) -> Result<Vec<Command>, OutOfMemory>
    ensures { IfOk result (λ given. given.items ≡ Complete payloads.now ∷ []) }
{
    let result = payloads.try_copy()?;
    one(alloc, Command::Complete { result })
}

/// Fails the run.
fn fail(alloc: Global, message: &str) -> Result<Vec<Command>, OutOfMemory>
    ensures { IfOk result (λ given. given.items ≡ Fail message.now ∷ []) }
{
    let message = text_of(alloc, message)?;
    one(alloc, Command::Fail { message })
}

/// Returns the commands of an order in the state `Charging` for a job.
fn given_charging(alloc: Global, job: &Job) -> Result<Vec<Command>, OutOfMemory>
    ensures { IfOk result (λ given. given.items ≡ charging_gives job.now) }
{
    match job {
        Job::Start { input, .. } => charge(alloc, input),
        Job::Activity { id, end } if id.get() == "charge" => match end {
            ActivityEnd::Completed(_) => hold(alloc),
            _ => fail(alloc, "charge"),
        },
        _ => Ok(Vec::new(alloc)),
    }
}

/// Returns the commands of an order in the state `Held` for a job.
fn given_held(alloc: Global, job: &Job) -> Result<Vec<Command>, OutOfMemory>
    ensures { IfOk result (λ given. given.items ≡ held_gives job.now) }
{
    match job {
        Job::Signal { name, .. } if name.get() == "cancel" => call_off(alloc),
        Job::TimerFired { id } if id.get() == "hold" => ask(alloc),
        _ => Ok(Vec::new(alloc)),
    }
}

/// Returns the commands of an order in the state `Shipping` for a job.
fn given_shipping(alloc: Global, parcel: &Text, job: &Job) -> Result<Vec<Command>, OutOfMemory>
    ensures { IfOk result (λ given. given.items ≡ shipping_gives parcel.now job.now) }
{
    match job {
        Job::Version { change_id, version } if change_id.get() == "tracked" => {
            ship(alloc, parcel, *version)
        }
        Job::Child { workflow_id, end } if workflow_id.get() == parcel.get() => match end {
            ChildEnd::Completed(given) => complete(alloc, given),
            _ => fail(alloc, "parcel"),
        },
        _ => Ok(Vec::new(alloc)),
    }
}

/// Returns the commands of an order for a job.
fn given(alloc: Global, state: &OrderState, job: &Job) -> Result<Vec<Command>, OutOfMemory>
    ensures { IfOk result (λ given. given.items ≡ order_gives state.now job.now) }
{
    match state {
        OrderState::Charging { .. } => given_charging(alloc, job),
        OrderState::Held { .. } => given_held(alloc, job),
        OrderState::Shipping { parcel } => given_shipping(alloc, parcel, job),
        OrderState::Closed => Ok(Vec::new(alloc)),
    }
}

/// Returns the state after a job in the state `Charging`.
fn after_charging(alloc: Global, parcel: Text, job: &Job) -> Result<OrderState, OutOfMemory>
    ensures { IfOk result (λ after. after ≡ charging_after parcel job.now) }
{
    Ok(match job {
        Job::Start { input, .. } => OrderState::Charging {
            parcel: parcel_id(alloc, input)?,
        },
        Job::Activity { id, end } if id.get() == "charge" => match end {
            ActivityEnd::Completed(_) => OrderState::Held { parcel },
            _ => OrderState::Closed,
        },
        _ => OrderState::Charging { parcel },
    })
}

/// Returns the state after a job in the state `Held`.
fn after_held(parcel: Text, job: &Job) -> OrderState
    ensures { result ≡ held_after parcel job.now }
{
    match job {
        Job::Signal { name, .. } if name.get() == "cancel" => OrderState::Closed,
        Job::TimerFired { id } if id.get() == "hold" => OrderState::Shipping { parcel },
        _ => OrderState::Held { parcel },
    }
}

/// Returns the state after a job in the state `Shipping`.
fn after_shipping(parcel: Text, job: &Job) -> OrderState
    ensures { result ≡ shipping_after parcel job.now }
{
    match job {
        Job::Child { workflow_id, .. } if workflow_id.get() == parcel.get() => OrderState::Closed,
        _ => OrderState::Shipping { parcel },
    }
}

/// Returns the state after a job. The id moves from state to state, and is never copied.
fn after(alloc: Global, state: OrderState, job: &Job) -> Result<OrderState, OutOfMemory>
    ensures { IfOk result (λ after. after ≡ order_after state job.now) }
{
    match state {
        OrderState::Charging { parcel } => after_charging(alloc, parcel, job),
        OrderState::Held { parcel } => Ok(after_held(parcel, job)),
        OrderState::Shipping { parcel } => Ok(after_shipping(parcel, job)),
        OrderState::Closed => Ok(OrderState::Closed),
    }
}

impl Workflow for Order {
    type State = OrderState;

    ghost program = { order };

    ghost lawful = { order_lawful };

    fn handles(kind: &str) -> bool {
        kind == "Order"
    }

    fn begin(alloc: Global, _kind: &str) -> Result<OrderState, OutOfMemory> {
        Ok(OrderState::Charging {
            parcel: text_of(alloc, "parcel")?,
        })
    }

    fn step(
        alloc: Global,
        state: &mut OrderState,
        job: &Job,
        out: &mut Vec<Command>,
        meter: &mut Meter,
    ) -> Result<(), OutOfMemory> {
        meter.tick();
        let given = given(alloc, state, job)?;
        give_all(out, given)?;
        let before = mem::replace(state, OrderState::Closed);
        *state = after(alloc, before, job)?;
        Ok(())
    }
}
