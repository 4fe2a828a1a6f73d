//! What the status codes of refused calls mean for a poll and for an answer.

ghost use Rattle.std.specs.Prelude.{◌≡◌, ◌≢◌};
ghost use Rattle.wh_client.specs.Codes.{HasCode, poll_end, accepted_answer, refused_answer, is_taken, keeps_run};

/// The status of a refused call, among those that a worker distinguishes (gRPC, "Status codes").
#[derive(Clone, Copy, PartialEq, Eq, Debug)]
pub enum StatusCode {
    /// 1: the call was canceled, as a bridge does when it shuts down.
    Cancelled,
    /// 3: the request is invalid for the server.
    InvalidArgument,
    /// 5: what the call refers to does not exist, or no longer.
    NotFound,
    /// 7: the caller may not make this call.
    PermissionDenied,
    /// 16: the caller is not authenticated.
    Unauthenticated,
    /// Any other code.
    Other,
}

/// Returns the status of a code.
pub fn status_of(code: i64) -> StatusCode
    ensures { HasCode result code }
{
    match code {
        1 => StatusCode::Cancelled,
        3 => StatusCode::InvalidArgument,
        5 => StatusCode::NotFound,
        7 => StatusCode::PermissionDenied,
        16 => StatusCode::Unauthenticated,
        _ => StatusCode::Other,
    }
}

/// What follows after a refused poll.
#[derive(Clone, Copy, PartialEq, Eq, Debug)]
pub enum PollEnd {
    /// There are no more tasks.
    Closed,
    /// No later poll can succeed: the namespace does not exist, or the worker is not permitted to
    /// poll it.
    Never,
    /// A later poll may succeed.
    Later,
}

/// Returns what follows after a poll that was refused with a status.
pub fn poll_end(status: StatusCode) -> PollEnd
    ensures { result ≡ poll_end status }
{
    match status {
        StatusCode::Cancelled => PollEnd::Closed,
        StatusCode::InvalidArgument
        | StatusCode::NotFound
        | StatusCode::PermissionDenied
        | StatusCode::Unauthenticated => PollEnd::Never,
        StatusCode::Other => PollEnd::Later,
    }
}

/// What became of the answer to a task.
#[derive(Clone, Copy, PartialEq, Eq, Debug)]
pub enum Receipt {
    /// The server accepted it.
    Acknowledged,
    /// The server accepted it and discarded the task, whose events are in no history, as it may
    /// happen to a task that an update made.
    Discarded,
    /// The task is over: it timed out, or its answer had been accepted and only the response was
    /// lost.
    NotFound,
    /// The server has failed the task itself, as when a signal came in while the answer closed the
    /// run. A new task follows.
    Invalid,
    /// It is a failure of a later attempt, which is not sent: the attempt times out.
    Withheld,
    /// It can't be written as a request, or is larger than the server accepts. The task was failed
    /// instead.
    Replaced,
    /// The bridge closed before a response came.
    Cut,
    /// The server or the bridge returned another error, or the request could not be written.
    Lost,
    /// There was no memory.
    NoMemory,
}

/// Returns what became of an answer that was accepted, by whether the server discarded the task.
pub fn accepted_answer(is_discarded: bool) -> Receipt
    ensures { result ≡ accepted_answer is_discarded }
{
    if is_discarded {
        Receipt::Discarded
    } else {
        Receipt::Acknowledged
    }
}

/// Returns what became of an answer that was refused with a status.
pub fn refused_answer(status: StatusCode) -> Receipt
    ensures is { result ≡ refused_answer status }
    ensures unacknowledged { result ≢ Receipt.Acknowledged }
    ensures sent { result ≢ Receipt.Withheld }
{
    match status {
        StatusCode::NotFound => Receipt::NotFound,
        StatusCode::InvalidArgument => Receipt::Invalid,
        StatusCode::Cancelled
        | StatusCode::PermissionDenied
        | StatusCode::Unauthenticated
        | StatusCode::Other => Receipt::Lost,
    }
}

impl Receipt {
    /// Returns whether the answer counts as taken: the server has it, needs none for this task, or
    /// it was withheld on purpose.
    pub fn is_taken(self) -> bool
        ensures { result ≡ is_taken self }
    {
        match self {
            Receipt::Acknowledged
            | Receipt::Discarded
            | Receipt::NotFound
            | Receipt::Invalid
            | Receipt::Withheld => true,
            Receipt::Replaced | Receipt::Cut | Receipt::Lost | Receipt::NoMemory => false,
        }
    }

    /// Returns whether the run of the task may be cached. Attempts of a task that was not completed
    /// or was discarded can end with the same event number and other times, so the run of such an
    /// attempt may differ from the history that follows.
    pub fn keeps_run(self) -> bool
        ensures { result ≡ keeps_run self }
    {
        self == Receipt::Acknowledged
    }
}
