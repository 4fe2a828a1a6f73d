//! Calls that keep what they bring of runs.

use crate::ends::{TaskEnd, end_after};
use crate::kept::{KeptRuns, note_first};
use crate::messages::{
    answers_query, beats, brings_workflow_task, closes_run, fetched_run, fetches, history_in,
    is_query, polled_place, queries_in, responds, token_of,
};
use crate::open_tasks::OpenTasks;
use serde_json::Value;
use std::alloc::{AllocError, Global};
use std::num::NonZeroUsize;
use std::sync::atomic::{AtomicBool, Ordering};
use std::sync::{Mutex, Wait};
use wh_rpc::{CallFault, CallResult, Caller, Response};

/// How many runs more are kept than a worker caches.
const SPARE_RUNS: usize = 1_000;

/// Calls over other calls. They note the metadata of the payloads that polls and pages of history
/// bring, and the header of each run, which its start and its signals set, and put them into the
/// requests that answer tasks of the same run. A call for which there is no memory to do so fails
/// with `OutOfMemory`: a payload without its metadata may be one that nobody can read.
///
/// The history that comes with workflow tasks is in `runs`, by the id of the run: those whose tasks
/// came last, and nothing else takes their room. What comes with an activity task, the queries that
/// come with a workflow task, both by the token of the task, and what comes for queries that came
/// alone, by the id of their run, is in `until_answered`. It is forgotten once the server took the
/// answer, and for queries that came alone with the answer. What comes is noted without a lock. As
/// long as there was nothing to keep, neither of both is locked.
#[derive(Drop)]
pub struct KeepingCalls<'a, C> {
    calls: &'a C,
    has_kept: AtomicBool,
    runs: Mutex<KeptRuns>,
    until_answered: Mutex<KeptRuns>,
    tasks: Mutex<OpenTasks>,
    queries: Mutex<OpenTasks>,
}

impl<'a, C: Caller> KeepingCalls<'a, C> {
    /// Returns calls over these calls, of a worker that caches at most so many runs. A thousand
    /// runs more are kept, those that workflow tasks came of last, and as many activity tasks and
    /// queries that are not answered. `AllocError` if there was no memory.
    pub fn new(calls: &'a C, cached: usize) -> Result<KeepingCalls<'a, C>, AllocError> {
        let most = NonZeroUsize::MIN
            .saturating_add(cached)
            .saturating_add(SPARE_RUNS);
        let runs = KeptRuns::new(calls.allocator(), most)?;
        let until_answered = KeptRuns::new(calls.allocator(), most)?;
        let tasks = OpenTasks::new(calls.allocator(), most)?;
        let queries = OpenTasks::new(calls.allocator(), most)?;
        Ok(KeepingCalls {
            calls,
            has_kept: AtomicBool::new(false),
            runs: Mutex::new(runs),
            until_answered: Mutex::new(until_answered),
            tasks: Mutex::new(tasks),
            queries: Mutex::new(queries),
        })
    }

    /// Whether there may be something that is kept.
    fn has_kept(&self) -> bool {
        self.has_kept.load(Ordering::SeqCst)
    }

    /// Keeps what came of a run or a task among others, if there is something to keep.
    fn keep<Q: Wait>(
        &self,
        rt: &Q,
        kept: &Mutex<KeptRuns>,
        place: &str,
        came: &Value,
    ) -> Result<(), AllocError> {
        let noted = note_first(self.calls.allocator(), came)?;
        if noted.is_empty() && !self.has_kept() {
            return Ok(());
        }
        self.has_kept.store(true, Ordering::SeqCst);
        let displaced = kept.lock(rt).keep(place, came, noted)?;
        drop(displaced);
        Ok(())
    }

    /// A request of a task or a query, with what is kept under a name until it is answered, and
    /// with what came with workflow tasks of a run.
    fn hand_on<Q: Wait>(
        &self,
        rt: &Q,
        name: &str,
        run: &str,
        params: Value,
    ) -> Result<Value, AllocError> {
        if !self.has_kept() {
            return Ok(params);
        }
        let params = self.until_answered.lock(rt).hand_on(name, params)?;
        self.runs.lock(rt).hand_on(run, params)
    }

    /// Forgets what is kept under this name until an answer.
    fn forget<Q: Wait>(&self, rt: &Q, name: &str) {
        if self.has_kept() {
            let seen = self.until_answered.lock(rt).forget(name);
            drop(seen);
        }
    }

    /// Notes the place of a task that a poll brought, or of a query.
    fn begin<Q: Wait>(
        &self,
        rt: &Q,
        open: &Mutex<OpenTasks>,
        token: &str,
        place: &str,
    ) -> Result<(), AllocError> {
        let token = String::from_str(self.calls.allocator(), token)?;
        let place = String::from_str(self.calls.allocator(), place)?;
        let displaced = open.lock(rt).begin(token, place)?;
        drop(displaced);
        Ok(())
    }

    /// Keeps the history that came of a run with a workflow task or a page, if there is one.
    fn keep_history<Q: Wait>(&self, rt: &Q, run: &str, brought: &Value) -> Result<(), AllocError> {
        match history_in(brought) {
            Some(history) => self.keep(rt, &self.runs, run, history),
            None => Ok(()),
        }
    }

    /// Keeps the queries that came with a workflow task, by its token, if there are any: their
    /// results may hand on their arguments.
    fn keep_queries<Q: Wait>(&self, rt: &Q, token: &str, task: &Value) -> Result<(), AllocError> {
        match queries_in(task) {
            Some(queries) => self.keep(rt, &self.until_answered, token, queries),
            None => Ok(()),
        }
    }

    /// Keeps a page of history for what it was asked for: the queries of the run that came alone, a
    /// workflow task of it, or both.
    fn keep_events<Q: Wait>(&self, rt: &Q, run: &str, page: &Value) -> Result<(), AllocError> {
        let for_query = self.queries.lock(rt).has(run);
        if !for_query {
            return self.keep_history(rt, run, page);
        }
        self.keep(rt, &self.until_answered, run, page)?;
        let for_task = self.tasks.lock(rt).has(run);
        if for_task {
            self.keep_history(rt, run, page)?;
        }
        Ok(())
    }

    /// Keeps what a page of history brought of a run.
    fn keep_page<Q: Wait>(
        &self,
        rt: &Q,
        run: &str,
        response: &Result<(u64, CallResult), CallFault>,
    ) -> Result<(), AllocError> {
        match response {
            Ok((_, CallResult::Given(page))) => self.keep_events(rt, run, page),
            _ => Ok(()),
        }
    }

    /// Keeps what a poll brought with a task.
    fn keep_task<Q: Wait>(&self, rt: &Q, method: &str, task: &Value) -> Result<(), AllocError> {
        let token = token_of(task);
        if token.is_empty() {
            return Ok(());
        }
        let place = polled_place(method, task);
        if is_query(task) {
            self.begin(rt, &self.queries, token, place)?;
        } else {
            self.begin(rt, &self.tasks, token, place)?;
        }
        if brings_workflow_task(method, task) {
            self.keep_queries(rt, token, task)?;
            self.keep_history(rt, place, task)
        } else {
            self.keep(rt, &self.until_answered, place, task)
        }
    }

    /// Keeps what a poll brought.
    fn keep_poll<Q: Wait>(
        &self,
        rt: &Q,
        method: &str,
        response: &Result<(u64, CallResult), CallFault>,
    ) -> Result<(), AllocError> {
        match response {
            Ok((_, CallResult::Given(task))) => self.keep_task(rt, method, task),
            _ => Ok(()),
        }
    }

    /// Asks for a page of history, and keeps what it brings.
    fn fetch<Q: Wait>(
        &self,
        rt: &Q,
        method: &str,
        params: Value,
    ) -> Result<(u64, CallResult), CallFault> {
        let run = String::from_str(self.calls.allocator(), fetched_run(&params))?;
        let response = self.calls.call(rt, method, params);
        match self.keep_page(rt, run.as_str(), &response) {
            Ok(()) => response,
            Err(fault) => Err(CallFault::from(fault)),
        }
    }

    /// The place of the task or the query that a call answers, or that a heartbeat is of.
    fn place_of<Q: Wait>(
        &self,
        rt: &Q,
        method: &str,
        params: &Value,
    ) -> Result<Option<String>, AllocError> {
        if answers_query(method) {
            self.queries.lock(rt).place_of(token_of(params))
        } else if responds(method) || beats(method) {
            self.tasks.lock(rt).place_of(token_of(params))
        } else {
            Ok(None)
        }
    }

    /// Forgets what a call has ended: the task and what is kept under its token, if the server took
    /// its answer, and its run, if that is closed.
    fn end<Q: Wait>(&self, rt: &Q, token: &str, run: &str, end: TaskEnd) {
        if end == TaskEnd::GoesOn {
            return;
        }
        let place = self.tasks.lock(rt).end(token);
        drop(place);
        self.forget(rt, token);
        if self.has_kept() {
            let seen = self.runs.lock(rt).end_task(run, end);
            drop(seen);
        }
    }

    /// Answers a query that came alone with what is kept for it, which is then forgotten, unless
    /// another query of its run waits. A query is answered once.
    fn answer_query<Q: Wait>(
        &self,
        rt: &Q,
        run: &str,
        method: &str,
        params: Value,
    ) -> Result<(u64, CallResult), CallFault> {
        let token = String::from_str(self.calls.allocator(), token_of(&params))?;
        let handed = self.hand_on(rt, run, run, params);
        self.end_query(rt, token.as_str(), run);
        self.calls.call(rt, method, handed?)
    }

    /// Forgets a query that came alone, and what is kept for the queries of its run if it was the
    /// last of them. The queries stay locked until then, so that what comes with another is kept.
    fn end_query<Q: Wait>(&self, rt: &Q, token: &str, run: &str) {
        let mut queries = self.queries.lock(rt);
        let place = queries.end(token);
        if !queries.has(run) {
            self.forget(rt, run);
        }
        drop(queries);
        drop(place);
    }

    /// Makes a call with what is kept under the token of its task and at its place. What the call
    /// ends is forgotten once the server took it, since a task may be answered a second time until
    /// then.
    fn call_from<Q: Wait>(
        &self,
        rt: &Q,
        place: &str,
        method: &str,
        params: Value,
    ) -> Result<(u64, CallResult), CallFault> {
        let token = String::from_str(self.calls.allocator(), token_of(&params))?;
        let closes = closes_run(&params);
        let params = self.hand_on(rt, token.as_str(), place, params)?;
        let response = self.calls.call(rt, method, params);
        let end = end_after(method, closes, &response);
        self.end(rt, token.as_str(), place, end);
        response
    }
}

impl<C: Caller> Caller for KeepingCalls<'_, C> {
    fn allocator(&self) -> Global {
        self.calls.allocator()
    }

    fn call<Q: Wait>(
        &self,
        rt: &Q,
        method: &str,
        params: Value,
    ) -> Result<(u64, CallResult), CallFault> {
        if fetches(method) {
            return self.fetch(rt, method, params);
        }
        match self.place_of(rt, method, &params) {
            Ok(Some(place)) if answers_query(method) => {
                self.answer_query(rt, place.as_str(), method, params)
            }
            Ok(Some(place)) => self.call_from(rt, place.as_str(), method, params),
            Ok(None) => self.calls.call(rt, method, params),
            Err(fault) => Err(CallFault::from(fault)),
        }
    }

    fn poll<Q: Wait>(
        &self,
        rt: &Q,
        method: &str,
        params: Value,
    ) -> Result<(u64, CallResult), CallFault> {
        let response = self.calls.poll(rt, method, params);
        match self.keep_poll(rt, method, &response) {
            Ok(()) => response,
            Err(fault) => Err(CallFault::from(fault)),
        }
    }

    fn deliver<Q: Wait>(&self, rt: &Q, response: Response) -> bool {
        self.calls.deliver(rt, response)
    }

    fn shut_down<Q: Wait>(&self, rt: &Q) {
        self.calls.shut_down(rt);
    }

    fn close<Q: Wait>(&self, rt: &Q) {
        self.calls.close(rt);
    }
}
