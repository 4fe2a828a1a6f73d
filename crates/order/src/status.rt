//! How an order answers queries.
ghost use Rattle.std.specs.Prelude.{◌≡◌};
ghost use Rattle.order.specs.Status.{status};

use crate::workflow::{Order, OrderState};
use std::alloc::Global;
use wh_author_tools::{one_payload, text_payload};
use wh_events::{OutOfMemory, Payload};
use wh_workflow::{QueryResult, Queryable, WorkflowDefinition, unknown_query};

/// Returns the name of the order's state.
fn status(state: &OrderState) -> &'static str
    ensures { result.now ≡ status state.now }
{
    match state {
        OrderState::Charging { .. } => "charging",
        OrderState::Held { .. } => "held",
        OrderState::Shipping { .. } => "shipping",
        OrderState::Closed => "closed",
    }
}

impl Queryable for Order {
    ghost use Rattle.order.specs.Status.{order_definitions, order_queries};

    ghost queries = { order_queries };

    fn query(
        alloc: Global,
        state: &OrderState,
        query_type: &str,
        _input: &[Payload],
    ) -> Result<QueryResult, OutOfMemory> {
        match query_type {
            "status" => {
                let result = text_payload(alloc, status(state))?;
                Ok(QueryResult::Answered(one_payload(alloc, result)?))
            }
            _ => unknown_query(alloc, query_type, "status"),
        }
    }

    ghost definitions = { order_definitions };

    fn definition(alloc: Global, _kind: &str) -> Result<WorkflowDefinition, OutOfMemory> {
        WorkflowDefinition::nothing(alloc)
            .with_query(alloc, "status")?
            .with_signal(alloc, "cancel")
    }
}
