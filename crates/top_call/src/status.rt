//! How a call of the program ends.

ghost use Rattle.std.specs.Prelude.{◌≡◌};
ghost use Rattle.std.specs.Process.{exit_status};
ghost use Rattle.top_call.specs.Due.{code_of};

use std::process::ExitCode;

/// How a call of the program ends. Each status but `Write` and `Memory` has its text.
#[derive(Clone, Copy, Debug, PartialEq, Eq)]
pub enum Status {
    /// The command succeeded; its text was written.
    Done,
    /// The words are no command, text `usage`; or there are more nodes than elements, text `nodes`.
    Usage,
    /// The job's text is no job; text `job`.
    Job,
    /// The script's text is no script for the job and its nodes, text `script`; or it has a crash line, text `unbuilt`.
    Script,
    /// The input has more than 262,144 bytes; text `long`.
    Long,
    /// The source failed; text `read`.
    Read,
    /// The sink failed; a part of the text due was written.
    Write,
    /// Memory ran out; nothing was written.
    Memory,
    /// Before the run ended no slot and not the conductor had an event, or the schedule's turns ran out; text `still`.
    Still,
}

impl Status {
    /// The status that the process ends with.
    pub fn code(self) -> u8
        ensures { result ≡ code_of self }
    {
        match self {
            Status::Done => 0,
            Status::Usage => 2,
            Status::Job => 3,
            Status::Script => 4,
            Status::Long => 5,
            Status::Read => 6,
            Status::Write => 7,
            Status::Memory => 10,
            Status::Still => 11,
        }
    }

    /// The status as `main` returns it.
    pub fn exit_code(self) -> ExitCode
        ensures { exit_status result ≡ code_of self }
    {
        ExitCode::from(self.code())
    }
}
