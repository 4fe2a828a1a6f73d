//! A workflow to copy, an order that is charged for, held for a day, and shipped; and a host of orders
//! in memory, with the handlers of their activities.
#![tactic(auto)]

mod activities;
mod arguments;
mod charging;
mod inbox;
mod labels;
mod memory;
mod naming;
mod orders;
mod status;
mod steps;
mod till;
mod workflow;

pub use activities::Activities;
pub use arguments::has_arguments;
pub use charging::receipt;
pub use memory::serve_from_memory;
pub use naming::parcel_id;
pub use till::Till;
pub use workflow::{Order, OrderState};
