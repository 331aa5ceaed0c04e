// What a program, a load or a command comes to, and the status that a program ends with. The greatest of several stands for all of them.
ghost use Rattle.std.specs.Prelude.{◌≡◌};
ghost use Rattle.std.specs.Process.{exit_status};
ghost use Rattle.report.specs.Ending.{status_number};

use std::process::ExitCode;

// Done; something was refused; something could not be read or written.
#[derive(Clone, Copy, PartialEq, Eq, PartialOrd, Ord)]
pub enum Status {
    Done,
    Refused,
    Failed,
}

impl From<Status> for ExitCode {
    ghost from_gives = { λ s e. exit_status e ≡ status_number s };

    fn from(status: Status) -> ExitCode {
        ExitCode::from(status as u8)
    }
}
