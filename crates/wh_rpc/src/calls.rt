//! Calls that many threads make over one connection.

use crate::call_fault::CallFault;
use crate::open_calls::OpenCalls;
use crate::output::Output;
use crate::request::request_text;
use crate::response::{CallResult, Response};
use crossbeam_channel::Sender;
use serde_json::Value;
use std::alloc::Global;
use std::io::Write;
use std::sync::{Mutex, Wait};

/// Makes calls over a connection. Many threads share one.
pub trait Caller {
    /// Returns the allocator that calls use.
    fn allocator(&self) -> Global;

    /// Sends a request, waits for its response and returns its id and outcome. `Closed` if no
    /// response will come, `Output` if the request could not be written, `OutOfMemory` if there was
    /// no memory for it.
    fn call<R: Wait>(
        &self,
        rt: &R,
        method: &str,
        params: Value,
    ) -> Result<(u64, CallResult), CallFault>;

    /// As `call`, but also `Closed` once the bridge has sent notice that it shuts down.
    fn poll<R: Wait>(
        &self,
        rt: &R,
        method: &str,
        params: Value,
    ) -> Result<(u64, CallResult), CallFault>;

    /// Delivers a response to the call of its id. Returns false if that call is not open: it was
    /// never sent, or it has its response, or all calls have ended.
    fn deliver<R: Wait>(&self, rt: &R, response: Response) -> bool;

    /// Lets each new poll fail with `Closed` from now on. Open polls keep waiting for their
    /// responses.
    fn shut_down<R: Wait>(&self, rt: &R);

    /// Ends all calls: those that wait and all new ones fail with `Closed`.
    fn close<R: Wait>(&self, rt: &R);
}

/// The calls over one connection. Each request is one line that the writer is given.
#[derive(Drop)]
pub struct Calls<W> {
    alloc: Global,
    output: Mutex<Output<W>>,
    open: Mutex<OpenCalls<Sender<CallResult>>>,
}

impl<W: Write + Drop> Calls<W> {
    /// Returns the calls over a new connection; none is open.
    pub fn new(alloc: Global, out: W) -> Calls<W> {
        Calls {
            alloc,
            output: Mutex::new(Output::new(out)),
            open: Mutex::new(OpenCalls::new(alloc)),
        }
    }

    /// Removes an open call that was not sent.
    fn give_up<R: Wait>(&self, rt: &R, id: u64) {
        drop(self.open.lock(rt).take(id));
    }

    /// Writes the request of an open call. After an error the call is not open.
    fn send<R: Wait>(&self, rt: &R, id: u64, method: &str, params: Value) -> Result<(), CallFault> {
        let Ok(line) = request_text(self.alloc, id, method, params) else {
            self.give_up(rt, id);
            return Err(CallFault::OutOfMemory);
        };
        let written = self.output.lock(rt).put(line.as_str());
        if !written {
            self.close(rt);
            return Err(CallFault::Output);
        }
        Ok(())
    }

    /// Opens a call, sends it and waits for its response.
    fn exchange<R: Wait>(
        &self,
        rt: &R,
        is_poll: bool,
        method: &str,
        params: Value,
    ) -> Result<(u64, CallResult), CallFault> {
        let (sender, receiver) = crossbeam_channel::bounded(self.alloc, 1)?;
        let id = self.open.lock(rt).open(is_poll, sender)?;
        self.send(rt, id, method, params)?;
        match receiver.recv(rt) {
            Ok(outcome) => Ok((id, outcome)),
            Err(_) => Err(CallFault::Closed),
        }
    }
}

impl<W: Write + Drop> Caller for Calls<W> {
    fn allocator(&self) -> Global {
        self.alloc
    }

    fn call<R: Wait>(
        &self,
        rt: &R,
        method: &str,
        params: Value,
    ) -> Result<(u64, CallResult), CallFault> {
        self.exchange(rt, false, method, params)
    }

    fn poll<R: Wait>(
        &self,
        rt: &R,
        method: &str,
        params: Value,
    ) -> Result<(u64, CallResult), CallFault> {
        self.exchange(rt, true, method, params)
    }

    fn deliver<R: Wait>(&self, rt: &R, response: Response) -> bool {
        let sender = self.open.lock(rt).take(response.id);
        match sender {
            Some(sender) => sender.send(rt, response.outcome).is_ok(),
            None => false,
        }
    }

    fn shut_down<R: Wait>(&self, rt: &R) {
        self.open.lock(rt).drain();
    }

    fn close<R: Wait>(&self, rt: &R) {
        self.open.lock(rt).close();
    }
}
