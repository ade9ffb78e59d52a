// How a run ends.

ghost use Rattle.std.specs.Prelude.{◌≡◌};
ghost use Rattle.gb_app.specs.Status.{exit_of, status_of};

use gb_state::verdict::Verdict;

/// How a run ended, in the order of the exit statuses.
#[derive(Clone, Copy)]
pub enum Status {
    Accepted,
    Refused,
    Usage,
    Missing,
    ReadFault,
    WriteFault,
    NoMemory,
}

/// The exit status of the process, 0 to 6.
pub fn exit_code(status: Status) -> u8
    ensures { result ≡ exit_of status }
{
    status as u8
}

/// The status of a run that reports this verdict.
pub fn status_of(verdict: &Verdict) -> Status
    ensures { result ≡ status_of verdict.now }
{
    match verdict {
        Verdict::Accepted(_) => Status::Accepted,
        Verdict::Refused { .. } => Status::Refused,
    }
}
