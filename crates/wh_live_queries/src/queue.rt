//! A queue of queries, from the workers to the desks beside them.
ghost use Rattle.std.specs.Prelude.{◌≡◌, ◌<◌, ◌++◌, ◌∷◌, [], IfErr, IsErr, OnErr, OnOk};
ghost use Rattle.std.specs.VecDeque.{deque_len};
ghost use Rattle.serde_json.specs.View.{view};
ghost use Rattle.wh_live_queries.specs.Waiting.{kept_behind, without_history};

use serde_json::Value;
use std::alloc::Global;
use std::collections::VecDeque;
use std::sync::{Condvar, Mutex, Wait};
use std::time::{Clock, Duration};
use wh_messages::QueryPoll;

/// The maximum number of waiting queries. Any further one is returned.
const MOST_WAITING: usize = 1_000;

/// The maximum number of seconds that a desk waits for the workers to begin.
const FIRST_WAIT: u64 = 10;

/// The stage of the workers.
#[derive(Clone, Copy)]
enum WorkerStage {
    /// They have not begun.
    Waiting,
    /// They are working.
    Working,
    /// They have ended, or nothing answers their queries.
    Ended,
}

/// The queries that wait, and the stage of the workers.
#[derive(Drop)]
struct Waiting {
    queries: VecDeque<QueryPoll>,
    stage: WorkerStage,
}

/// Queries that workers pass to desks in threads beside them. A desk takes them one after another,
/// until the workers have ended and none is left. Of those that wait, only the first keeps the
/// history that came with it: a desk fetches that of the others.
#[derive(Drop)]
pub struct QueryQueue {
    waiting: Mutex<Waiting>,
    changed: Condvar,
}

impl QueryQueue {
    /// Returns an empty queue. The workers have not begun.
    pub fn new(alloc: Global) -> QueryQueue {
        QueryQueue {
            waiting: Mutex::new(Waiting {
                queries: VecDeque::new(alloc),
                stage: WorkerStage::Waiting,
            }),
            changed: Condvar::new(),
        }
    }

    /// Notes that the workers begin, unless a desk has given up before.
    pub fn begin<R: Wait>(&self, rt: &R) {
        let mut waiting = self.waiting.lock(rt);
        if matches!(waiting.stage, WorkerStage::Waiting) {
            waiting.stage = WorkerStage::Working;
        }
        drop(waiting);
        self.changed.notify_all();
    }

    /// Notes that the workers have ended: no query is accepted from now on.
    pub fn end<R: Wait>(&self, rt: &R) {
        self.waiting.lock(rt).stage = WorkerStage::Ended;
        self.changed.notify_all();
    }

    /// Passes a query to a desk. Returns the query if 1,000 queries wait already, if there is no
    /// memory for it, and if nothing answers queries any more: then it may have lost its history.
    pub fn hand_on<R: Wait>(&self, rt: &R, query: QueryPoll) -> Result<(), QueryPoll> {
        let mut waiting = self.waiting.lock(rt);
        let query = waiting.shorten(query);
        let handed = waiting.take(query);
        drop(waiting);
        self.changed.notify_all();
        handed
    }

    /// Returns the query that has waited longest. A desk waits for one. `None` if the workers
    /// have ended and no query is left, and if they have not begun within ten seconds, as when
    /// there is no thread for them beside a desk: from then on nothing answers queries.
    pub fn next<R: Wait + Clock>(&self, rt: &R) -> Option<QueryPoll> {
        let waiting = self.waiting.lock(rt);
        let most = Duration::from_secs(FIRST_WAIT);
        let (mut waiting, _waited) = self
            .changed
            .wait_timeout_while(rt, waiting, most, |waiting| {
                matches!(waiting.stage, WorkerStage::Waiting)
            });
        if matches!(waiting.stage, WorkerStage::Waiting) {
            waiting.stage = WorkerStage::Ended;
        }
        let mut waiting = self.changed.wait_while(rt, waiting, |waiting| {
            waiting.queries.is_empty() && !matches!(waiting.stage, WorkerStage::Ended)
        });
        waiting.queries.pop_front()
    }
}

/// The value without its member `history`.
fn without_history(value: Value) -> Value
    ensures { view result ≡ without_history (view value) }
{
    match value {
        Value::Object(mut members) => {
            drop(members.remove("history"));
            Value::Object(members)
        }
        Value::Array(items) => Value::Array(items),
        Value::Null => Value::Null,
        Value::Bool(b) => Value::Bool(b),
        Value::Number(n) => Value::Number(n),
        Value::String(text) => Value::String(text),
    }
}

impl Waiting {
    /// The query as it waits here: behind others without the history that came with it, which can
    /// be fetched again.
    fn shorten(&self, query: QueryPoll) -> QueryPoll
        ensures token { result.token ≡ query.token }
        ensures result { view result.result ≡ kept_behind (deque_len self.now.queries) (view query.result) }
    {
        let QueryPoll { token, result } = query;
        let result = if self.queries.is_empty() {
            result
        } else {
            without_history(result)
        };
        QueryPoll { token, result }
    }

    /// Adds a query behind the others, or returns it: if nothing answers queries any more, if 1,000
    /// wait already, and if there is no memory for it.
    fn take(&mut self, query: QueryPoll) -> Result<(), QueryPoll>
        ensures added { OnOk result (self.new.queries.items ≡ self.old.queries.items ++ query ∷ []) }
        ensures refused { OnErr result (self.new.queries.items ≡ self.old.queries.items) }
        ensures returned { IfErr result (λ own. own ≡ query) }
        ensures ended { self.old.stage ≡ WorkerStage.Ended → IsErr result }
        ensures room { OnOk result (deque_len self.old.queries < 1000) }
        ensures stage { self.new.stage ≡ self.old.stage }
    {
        if matches!(self.stage, WorkerStage::Ended) || self.queries.len() >= MOST_WAITING {
            return Err(query);
        }
        match self.queries.push_back(query) {
            Ok(()) => Ok(()),
            Err(refused) => Err(refused.value),
        }
    }
}
