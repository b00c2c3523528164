//! Commands, and the options that they were given.

ghost use Rattle.std.specs.Prelude.{◌≡◌};
ghost use Rattle.command_words.specs.Grammar.{Bounded, Fit, drill_with};

use chare_base::options::{Mode, Options};

/// What the program is asked for.
#[derive(Clone, Copy, Debug, PartialEq, Eq)]
pub enum Command {
    /// Run the job on one thread, its events picked by a schedule.
    Drill { options: Options, schedule: u64 },
}

/// The options of a command.
#[derive(Clone, Copy, Debug, PartialEq, Eq)]
pub enum OptionName {
    /// `--nodes`: nodes of each replica, from 1 to 32; 1 where it isn't given.
    Nodes,
    /// `--every`: iterations from one checkpoint to the next, at least, from 1 to 1,000,000; 10 where it isn't given.
    Every,
    /// `--schedule`: which events the drill picks, up to 2^64 - 1; 0 where it isn't given.
    Schedule,
}

/// What was given of the options so far.
#[derive(Clone, Copy, Debug, PartialEq, Eq)]
pub struct Given {
    pub nodes: Option<u64>,
    pub every: Option<u64>,
    pub schedule: Option<u64>,
}

impl Given {
    /// No option.
    pub const NONE: Given = Given {
        nodes: None,
        every: None,
        schedule: None,
    };

    /// The drill with these options, each other one at its default.
    pub(crate) fn drill(self) -> Command
        requires { Fit self }
        ensures exact { result ≡ drill_with self }
        ensures bounded { Bounded result }
    {
        Command::Drill {
            options: Options {
                nodes: self.nodes.unwrap_or(1) as u16,
                every: self.every.unwrap_or(10),
                spares: 0,
                mode: Mode::Strong,
            },
            schedule: self.schedule.unwrap_or(0),
        }
    }
}
