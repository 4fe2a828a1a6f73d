//! Queries that polls return.

ghost use Rattle.wh_client.specs.Polls.{GivesQuery};

use wh_client::{Client, Connection};
use wh_messages::QueryPoll;

/// Passes a query that a poll returned to what answers queries beside the workers, or refuses it if
/// nothing does. A query that the server gets no answer to times out.
pub(crate) fn hand_query_on<L: Connection>(client: &Client<'_, L>, query: QueryPoll)
    requires { GivesQuery L.gives query }
{
    if let Err(query) = client.connection.hand_on(query) {
        let _ = client.refuse_query(&query.token);
    }
}
