//! Writes and sends the requests that answer tasks.

ghost use Rattle.std.specs.Prelude.{IfErr, IfOk, OnOk, codes};
ghost use Rattle.serde_json.specs.View.{members_view, view};
ghost use Rattle.wh_commands.specs.CarryingOver.{carried_seen};
ghost use Rattle.wh_client.specs.Refusals.{HasItsStatus, IsFaultBy};
ghost use Rattle.wh_messages.specs.Requests.{activity_completed, no_queries, query_failed};
ghost use Rattle.wh_messages.specs.Requests.{workflow_completed, workflow_failed};
ghost use Rattle.wh_client.specs.Requests.{GivesUpQueue, IsAnswered, IsRequest, IsTaken, KeepsQueue, WritesRequest};

use crate::asking::{AskFault, ask};
use crate::client::Client;
use crate::connection::Connection;
use serde_json::Value;
use wh_commands::{CarriedOver, Members, RequestFault};
use wh_events::{Event, OutOfMemory, Payload, Text};
use wh_messages::{
    FailedCause, NO_QUERIES, activity_completed, is_discarded, query_failed, shutdown,
    workflow_completed, workflow_failed,
};
use wh_workflow::Command;

/// A call to be made.
#[derive(Debug, Drop)]
pub struct Request {
    /// Its method, as `RespondWorkflowTaskCompleted`.
    pub method: &'static str,
    /// Its parameters, in the proto3 JSON form of the method's request.
    pub params: Value,
}

impl<L: Connection> Client<'_, L> {
    /// Writes the completion of the workflow task of a token with commands, after the events that
    /// they were replayed from, and with the results of queries that came with the task. What is
    /// carried over is only used in a Continue-As-New. The error is that of the first command that
    /// can't be written; `OutOfMemory` can replace each of them.
    pub fn completion_request(
        &self,
        token: &Text,
        commands: &[Command],
        events: &[Event],
        results: Members,
        carried: &CarriedOver,
    ) -> Result<Request, RequestFault>
        ensures { WritesRequest result (codes "RespondWorkflowTaskCompleted") (workflow_completed
            self.now.options.now.names token.now commands.now events.now (members_view results.entries)
            self.now.options.now.sticky self.now.options.now.policies (carried_seen carried.now)) }
    {
        let options = self.options;
        let params = workflow_completed(
            self.allocator(),
            &options.names,
            token.get(),
            commands,
            events,
            results,
            options.sticky,
            &options.policies,
            carried,
        )?;
        Ok(Request {
            method: "RespondWorkflowTaskCompleted",
            params,
        })
    }

    /// Writes the failure of the workflow task of a token, with a cause and a message.
    /// `OutOfMemory` if there was no memory for the request.
    pub fn failure_request(
        &self,
        token: &Text,
        cause: FailedCause,
        message: &str,
    ) -> Result<Request, OutOfMemory>
        ensures { IfOk result (λ request. IsRequest request (codes "RespondWorkflowTaskFailed")
            (workflow_failed self.now.options.now.names token.now cause message.now)) }
    {
        let (alloc, names) = (self.allocator(), &self.options.names);
        Ok(Request {
            method: "RespondWorkflowTaskFailed",
            params: workflow_failed(alloc, names, token.get(), cause, message)?,
        })
    }

    /// Writes the completion of the activity task of a token, with the activity's result.
    /// `OutOfMemory` if there was no memory for the request.
    pub fn activity_completed(
        &self,
        token: &Text,
        outcome: &[Payload],
    ) -> Result<Request, OutOfMemory>
        ensures { IfOk result (λ request. IsRequest request (codes "RespondActivityTaskCompleted")
            (activity_completed self.now.options.now.names token.now outcome.now)) }
    {
        let (alloc, names) = (self.allocator(), &self.options.names);
        Ok(Request {
            method: "RespondActivityTaskCompleted",
            params: activity_completed(alloc, names, token.get(), outcome)?,
        })
    }

    /// Sends a request and waits until the server accepts it. Returns whether the server says that
    /// it has discarded the task. The error says why it did not accept the request, as far as that
    /// is known: a refusal has the status of its code.
    pub fn send(&self, request: Request) -> Result<bool, AskFault>
        ensures answered { IfOk result (IsAnswered L.gives request) }
        ensures failed { IfErr result (IsFaultBy (L.fails request.method.now (view request.params))) }
        ensures refused { IfErr result HasItsStatus }
    {
        let Request { method, params } = request;
        match ask(self.connection, method, params) {
            Ok((_id, value)) => Ok(is_discarded(&value)),
            Err(fault) => Err(fault),
        }
    }

    /// Answers the query of a token with the message that this worker answers none. The error says
    /// why the server did not take that: the query then times out.
    pub fn refuse_query(&self, token: &Text) -> Result<(), AskFault>
        ensures sent { OnOk result (IsTaken L.gives (codes "RespondQueryTaskCompleted")
            (query_failed self.now.options.now.names token.now no_queries)) }
        ensures failed { IfErr result (IsFaultBy (L.fails (codes "RespondQueryTaskCompleted")
            (query_failed self.now.options.now.names token.now no_queries))) }
        ensures refused { IfErr result HasItsStatus }
    {
        let names = &self.options.names;
        let params = query_failed(self.allocator(), names, token.get(), NO_QUERIES)?;
        match ask(self.connection, "RespondQueryTaskCompleted", params) {
            Ok(_taken) => Ok(()),
            Err(fault) => Err(fault),
        }
    }

    /// Gives up the sticky queue, if there is one, so that tasks don't wait there for a process
    /// that has ended. The error says why the server did not take that: tasks then wait there until
    /// their time in it is over.
    pub fn give_up_queue(&self) -> Result<(), AskFault>
        ensures given_up { OnOk result
            (GivesUpQueue L.gives self.now.options.now.names self.now.options.now.sticky) }
        ensures failed { IfErr result
            (KeepsQueue L.fails self.now.options.now.names self.now.options.now.sticky) }
        ensures refused { IfErr result HasItsStatus }
    {
        let Some(_timeout) = self.options.sticky else {
            return Ok(());
        };
        let params = shutdown(self.allocator(), &self.options.names)?;
        match ask(self.connection, "ShutdownWorker", params) {
            Ok(_taken) => Ok(()),
            Err(fault) => Err(fault),
        }
    }
}
