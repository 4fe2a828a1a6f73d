//! Workflows as tables of rows. It is proved that the table `Nap` does the same as the sample of
//! this name in code (`does_as_code`). `Family` and `Order` also exist in code, and it is tested
//! that they do the same if the start is the first job; with a signal before the start, `Family`
//! differs from its code.
#![tactic(auto)]

mod booking;
mod family;
mod nap;
mod order;
mod plan;
mod subscription;

pub use booking::{BOOKING, Booking, BookingTable, refunds_each_charge};
pub use family::{FAMILY, Family, FamilyTable};
pub use nap::{NAP, Nap, NapTable, does_as_code};
pub use order::{ORDER, Order, OrderTable};
pub use plan::{PLAN, Plan, PlanTable, charges_twelve_times_at_most};
pub use subscription::{SUBSCRIPTION, Subscription, SubscriptionTable, charges_36_times_at_most};
use wh_workflow::Pair;

/// All of them but `Order`, by workflow type, for a program that has orders in code.
pub type AllButOrder = Pair<Nap, Pair<Family, Pair<Plan, Pair<Subscription, Booking>>>>;
