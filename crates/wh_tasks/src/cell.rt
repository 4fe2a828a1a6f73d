//! The activity task that a worker runs, shared by its source, its handler and the timer.

ghost use Rattle.std.specs.Prelude.{◌≡◌, IfOk, IfSome, None, is_some, option_map};
ghost use Rattle.wh_tasks.specs.Cells.{after_due, after_response, after_step, begun, due_in, due_of, ended, has_due, has_due_in, held_in, holding, in_task, is_sending, known, may_send, sending, step_in, step_of, told, was_canceled};

use crate::activity_info::ActivityInfo;
use crate::heartbeat::HeartbeatResponse;
use crate::pace::{interval_of, is_due};
use std::sync::{Condvar, Mutex, Wait};
use wh_events::{Items, OutOfMemory, Payload, Text};

/// What becomes of a heartbeat.
#[derive(Debug, Drop)]
pub enum HeartbeatStep {
    /// It is to be sent now, with these details.
    Send(Items<Payload>),
    /// It is held: its details are sent later, unless others come before. This is the response to
    /// it, by what former heartbeats heard.
    Hold(HeartbeatResponse),
}

/// The activity task that a worker runs, and what is known of it.
#[derive(Debug, Drop)]
struct RunningActivity {
    /// The task token under which it is answered.
    token: Text,
    /// What the poll's response said of it.
    info: ActivityInfo,
    /// Whether the response to a heartbeat said that it is to be canceled.
    is_canceled: bool,
    /// Whether its handler was told that it is to be canceled.
    is_told: bool,
    /// Whether no heartbeat of it may be sent any more: the response to one said that it can't be
    /// answered any more, or its handler has ended.
    is_over: bool,
    /// When its last heartbeat was sent, if one was, and there was a time.
    sent: Option<u64>,
    /// Whether a heartbeat was sent, of which no response was heard so far.
    is_sending: bool,
    /// The details that are to be sent, if any are.
    held: Option<Items<Payload>>,
}

impl RunningActivity {
    /// Returns the response to a heartbeat that is held.
    fn held_response(&self) -> HeartbeatResponse
        ensures { result ≡ known self.now }
    {
        if self.is_over {
            HeartbeatResponse::Gone
        } else if self.is_canceled {
            HeartbeatResponse::CancelRequested
        } else {
            HeartbeatResponse::GoOn
        }
    }

    /// Whether a heartbeat may be sent now: none is on its way, and the last one was sent an
    /// interval ago.
    fn may_send(&self, now: Option<u64>) -> bool
        ensures { result ≡ may_send self.now now }
    {
        !self.is_over && !self.is_sending && is_due(self.sent, now, interval_of(&self.info.times))
    }

    /// Whether something is held, and may be sent now.
    fn has_due(&self, now: Option<u64>) -> bool
        ensures { result ≡ has_due self.now now }
    {
        self.held.is_some() && self.may_send(now)
    }

    /// Notes that a heartbeat is sent now: nothing is held any more.
    fn send(&mut self, now: Option<u64>)
        ensures { self.new ≡ sending self.old now }
    {
        self.sent = now;
        self.is_sending = true;
        self.held = None;
    }

    /// Holds these details in place of those before, unless the task can't be answered any more.
    fn hold(&mut self, details: Items<Payload>)
        ensures { self.new ≡ holding self.old details }
    {
        if !self.is_over {
            self.held = Some(details);
        }
    }

    /// Returns what becomes of a heartbeat with these details, and notes that it is sent, or holds
    /// them.
    fn step(&mut self, details: Items<Payload>, now: Option<u64>) -> HeartbeatStep
        ensures step { result ≡ step_of self.old details now }
        ensures left { self.new ≡ after_step self.old details now }
    {
        if self.may_send(now) {
            self.send(now);
            HeartbeatStep::Send(details)
        } else {
            self.hold(details);
            HeartbeatStep::Hold(self.held_response())
        }
    }

    /// Takes what is held, and notes that it is sent, if it may be sent now.
    fn take_due(&mut self, now: Option<u64>) -> Option<Items<Payload>>
        ensures due { result ≡ due_of self.old now }
        ensures left { self.new ≡ after_due self.old now }
    {
        if !self.has_due(now) {
            return None;
        }
        let due = self.held.take();
        self.send(now);
        due
    }

    /// Notes the response to a heartbeat with these details. If there was none, the details are
    /// held, unless later ones are.
    fn hear(&mut self, details: Items<Payload>, response: HeartbeatResponse)
        ensures { self.new ≡ after_response self.old details response }
    {
        self.is_sending = false;
        match response {
            HeartbeatResponse::GoOn => {}
            HeartbeatResponse::CancelRequested => self.is_canceled = true,
            HeartbeatResponse::Gone => {
                self.is_over = true;
                self.held = None;
            }
            HeartbeatResponse::Unheard => {
                if self.held.is_none() {
                    self.held = Some(details);
                }
            }
        }
    }
}

/// Returns the task of the token, with this info, of which nothing is known so far. `None` if there
/// was no memory for a copy of the token.
fn new_activity(token: &Text, info: ActivityInfo) -> Option<RunningActivity>
    ensures { IfSome result (λ running. running ≡ begun token.now info) }
{
    match token.try_copy() {
        Ok(token) => Some(RunningActivity {
            token,
            info,
            is_canceled: false,
            is_told: false,
            is_over: false,
            sent: None,
            is_sending: false,
            held: None,
        }),
        Err(_) => None,
    }
}

/// Returns a copy of the token of the task, if there is one. Returns `OutOfMemory` if there was no
/// memory for the copy.
fn token_of(running: &Option<RunningActivity>) -> Result<Option<Text>, OutOfMemory>
    ensures { IfOk result (λ token. token ≡ option_map (λ r. r.token) running.now) }
{
    match running {
        Some(running) => Ok(Some(running.token.try_copy()?)),
        None => Ok(None),
    }
}

/// Returns a copy of the info of the task, if there is one. Returns `OutOfMemory` if there was no
/// memory for the copy.
fn info_of(running: &Option<RunningActivity>) -> Result<Option<ActivityInfo>, OutOfMemory>
    ensures { IfOk result (λ info. info ≡ option_map (λ r. r.info) running.now) }
{
    match running {
        Some(running) => Ok(Some(running.info.try_copy()?)),
        None => Ok(None),
    }
}

/// Notes that the handler of the task was told that it is to be canceled, if there is one and it is
/// that of the token.
fn note_cancel(running: &mut Option<RunningActivity>, token: &str)
    ensures { running.new ≡ in_task told running.old token.now }
{
    if let Some(running) = running {
        if running.token.get() == token {
            running.is_told = true;
        }
    }
}

/// Whether there is a task, it is that of the token, and its handler was told that it is to be
/// canceled.
fn was_canceled(running: &Option<RunningActivity>, token: &str) -> bool
    ensures { result ≡ was_canceled running.now token.now }
{
    match running {
        Some(running) => running.is_told && running.token.get() == token,
        None => false,
    }
}

/// Whether a heartbeat of the task was sent, of which no response was heard so far.
fn is_sending(running: &Option<RunningActivity>) -> bool
    ensures { result ≡ is_sending running.now }
{
    match running {
        Some(running) => running.is_sending,
        None => false,
    }
}

/// Whether something is held for the task, and may be sent now.
fn has_due(running: &Option<RunningActivity>, now: Option<u64>) -> bool
    ensures { result ≡ has_due_in running.now now }
{
    match running {
        Some(running) => running.has_due(now),
        None => false,
    }
}

/// Takes the next step of a heartbeat with these details, if there is a task and it is that of the
/// token. Otherwise its response is `Unheard`.
fn next_step(
    running: &mut Option<RunningActivity>,
    token: &str,
    details: Items<Payload>,
    now: Option<u64>,
) -> HeartbeatStep
    ensures step { result ≡ step_in running.old token.now details now }
    ensures left { running.new ≡ in_task (λ r. after_step r details now) running.old token.now }
{
    if let Some(running) = running {
        if running.token.get() == token {
            return running.step(details, now);
        }
    }
    HeartbeatStep::Hold(HeartbeatResponse::Unheard)
}

/// Takes what is held, and notes that it is sent, if there is a task, it is that of the token, and
/// what is held may be sent now.
fn take_due(
    running: &mut Option<RunningActivity>,
    token: &str,
    now: Option<u64>,
) -> Option<Items<Payload>>
    ensures due { result ≡ due_in running.old token.now now }
    ensures left { running.new ≡ in_task (λ r. after_due r now) running.old token.now }
{
    if let Some(running) = running {
        if running.token.get() == token {
            return running.take_due(now);
        }
    }
    None
}

/// Ends the heartbeats of the task, if there is one and it is that of the token, and takes what is
/// held.
fn end(running: &mut Option<RunningActivity>, token: &str) -> Option<Items<Payload>>
    ensures held { result ≡ held_in running.old token.now }
    ensures left { running.new ≡ in_task ended running.old token.now }
{
    if let Some(running) = running {
        if running.token.get() == token {
            running.is_over = true;
            return running.held.take();
        }
    }
    None
}

/// Notes the response to a heartbeat with these details, if there is a task and it is that of the
/// token.
fn hear(
    running: &mut Option<RunningActivity>,
    token: &str,
    details: Items<Payload>,
    response: HeartbeatResponse,
)
    ensures { running.new ≡ in_task (λ r. after_response r details response) running.old token.now }
{
    if let Some(running) = running {
        if running.token.get() == token {
            running.hear(details, response);
        }
    }
}

/// What a worker's source, the handler of its activities and the timer beside them know of the task
/// that the worker runs. The source sets which task it is, with its info. The handler's heartbeat
/// gives details, and learns whether they are to be sent now or held, and the timer takes what is
/// held once its time has come. One heartbeat of a task is on its way at a time. The threads may
/// differ, so contracts don't see what the cell holds: each call takes the cell's lock and does one
/// thing with what it holds, which a contract pins.
#[derive(Drop)]
pub struct ActivityCell {
    running: Mutex<Option<RunningActivity>>,
    heard: Condvar,
}

impl ActivityCell {
    /// Returns a cell for a worker that runs no task.
    pub fn new() -> ActivityCell {
        ActivityCell {
            running: Mutex::new(None),
            heard: Condvar::new(),
        }
    }

    /// Notes that the task of this token runs now, in place of the one before, and its info. If
    /// there is no memory for a copy of the token, the cell holds no task.
    pub fn begin<R: Wait>(&self, rt: &R, token: &Text, info: ActivityInfo) {
        *self.running.lock(rt) = new_activity(token, info);
    }

    /// Returns a copy of the token of the task that runs, if one does. Returns `OutOfMemory` if
    /// there was no memory for the copy.
    pub fn token<R: Wait>(&self, rt: &R) -> Result<Option<Text>, OutOfMemory> {
        token_of(&self.running.lock(rt))
    }

    /// Returns a copy of the info of the task that runs, if one does. Returns `OutOfMemory` if
    /// there was no memory for the copy.
    pub fn info<R: Wait>(&self, rt: &R) -> Result<Option<ActivityInfo>, OutOfMemory> {
        info_of(&self.running.lock(rt))
    }

    /// Returns what becomes of a heartbeat of the task of this token with these details, at a time
    /// in milliseconds of a clock, if there is one. The first one is to be sent, and each that
    /// comes at least an interval after the last one that was sent: four fifths of the Heartbeat
    /// Timeout and at most a minute, half a minute without one. Any other is held, in place of what
    /// was held before, and one that comes while another is on its way. Whoever sends it then
    /// passes its response to `hear`. If the task is not the one that runs, the response is
    /// `Unheard`.
    pub fn next_step<R: Wait>(
        &self,
        rt: &R,
        token: &Text,
        details: Items<Payload>,
        now: Option<u64>,
    ) -> HeartbeatStep {
        next_step(&mut self.running.lock(rt), token.get(), details, now)
    }

    /// Whether `take_due` has something to take.
    pub fn has_due<R: Wait>(&self, rt: &R, now: Option<u64>) -> bool {
        has_due(&self.running.lock(rt), now)
    }

    /// Takes the details that are held for the task of this token, if it is the one that runs and
    /// they may be sent at this time. Whoever takes them sends them, and passes the response to
    /// `hear`.
    pub fn take_due<R: Wait>(
        &self,
        rt: &R,
        token: &Text,
        now: Option<u64>,
    ) -> Option<Items<Payload>> {
        take_due(&mut self.running.lock(rt), token.get(), now)
    }

    /// Ends the heartbeats of the task of this token, if it is the one that runs: no more are sent,
    /// and what is held is dropped.
    pub fn end<R: Wait>(&self, rt: &R, token: &Text) {
        let _held = end(&mut self.running.lock(rt), token.get());
    }

    /// Ends the heartbeats of the task of this token, if it is the one that runs, and takes what is
    /// held, so that it is sent before the task's answer. If a heartbeat is on its way, it waits
    /// for the response first: if there was none, its details are held again.
    pub fn take_last<R: Wait>(&self, rt: &R, token: &Text) -> Option<Items<Payload>> {
        let running = self.running.lock(rt);
        let mut running = self
            .heard
            .wait_while(rt, running, |running| is_sending(running));
        end(&mut running, token.get())
    }

    /// Notes the response to a heartbeat of the task of this token with these details, if it is the
    /// one that runs. If there was none, the details are held, unless later ones are.
    pub fn hear<R: Wait>(
        &self,
        rt: &R,
        token: &Text,
        details: Items<Payload>,
        response: HeartbeatResponse,
    ) {
        hear(&mut self.running.lock(rt), token.get(), details, response);
        self.heard.notify_all();
    }

    /// Notes that the handler of the task of this token was told that it is to be canceled, if it
    /// is the one that runs.
    pub fn note_cancel<R: Wait>(&self, rt: &R, token: &Text) {
        note_cancel(&mut self.running.lock(rt), token.get());
    }

    /// Whether the task of this token is the one that runs, and its handler was told that it is to
    /// be canceled.
    pub fn was_canceled<R: Wait>(&self, rt: &R, token: &Text) -> bool {
        was_canceled(&self.running.lock(rt), token.get())
    }
}
