//! How a call ends, as the number that it returns.
ghost use Rattle.std.specs.Prelude.{◌≡◌};
ghost use Rattle.toxicap_c.specs.Statuses.{code_of, status_of};

#[derive(Clone, Copy, Debug, PartialEq, Eq)]
pub(crate) enum Status {
    /// The answer stands in the buffers (0).
    Answered,
    /// The text of a refusal stands in the buffer of reports (1).
    Refused,
    /// The buffers have too little room, and are as they were (2).
    LittleRoom,
    /// Memory ran out, the buffer of reports has too little room for the line that says so, and the buffers are as they were (3).
    NoMemory,
}

pub(crate) fn code_of(status: Status) -> u8
    ensures { result ≡ code_of status }
{
    match status {
        Status::Answered => 0,
        Status::Refused => 1,
        Status::LittleRoom => 2,
        Status::NoMemory => 3,
    }
}

/// How a call ends that has an answer, by whether it was put.
pub(crate) fn status_of(is_put: bool) -> Status
    ensures { result ≡ status_of is_put }
{
    if is_put {
        Status::Answered
    } else {
        Status::LittleRoom
    }
}
