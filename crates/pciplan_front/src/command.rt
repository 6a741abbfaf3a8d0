//! The commands that are explained.
ghost use Rattle.std.specs.Prelude.{◌≡◌, nat_eq, IsTrue};
ghost use Rattle.std.specs.List.{starts_with};
ghost use Rattle.pciplan_front.specs.Commands.{explained_command_name, command_heading, command_text};

use super::command_texts as texts;

/// A command of `pciplan`.
#[derive(Clone, Copy)]
pub enum Command {
    Here,
    Show,
    Check,
    Faults,
    Map,
    Size,
    Plan,
    Settle,
    Probe,
    Json,
    Picture,
    Explain,
    Version,
}

/// All commands in the order of the manual page.
pub const COMMANDS: [Command; 13] = [
    Command::Here,
    Command::Show,
    Command::Check,
    Command::Faults,
    Command::Map,
    Command::Size,
    Command::Plan,
    Command::Settle,
    Command::Probe,
    Command::Json,
    Command::Picture,
    Command::Explain,
    Command::Version,
];

impl Command {
    /// The name.
    pub fn name(self) -> &'static str
        ensures { result.now ≡ explained_command_name self }
    {
        match self {
            Command::Here => "here",
            Command::Show => "show",
            Command::Check => "check",
            Command::Faults => "faults",
            Command::Map => "map",
            Command::Size => "size",
            Command::Plan => "plan",
            Command::Settle => "settle",
            Command::Probe => "probe",
            Command::Json => "json",
            Command::Picture => "picture",
            Command::Explain => "explain",
            Command::Version => "version",
        }
    }

    /// Its words, its answer and its options. The first line begins with `pciplan` and the name.
    pub fn text(self) -> &'static str
        ensures text { result.now ≡ command_text self }
        ensures heading { IsTrue (starts_with nat_eq result.now (command_heading self)) }
    {
        match self {
            Command::Here => texts::HERE,
            Command::Show => texts::SHOW,
            Command::Check => texts::CHECK,
            Command::Faults => texts::FAULTS,
            Command::Map => texts::MAP,
            Command::Size => texts::SIZE,
            Command::Plan => texts::PLAN,
            Command::Settle => texts::SETTLE,
            Command::Probe => texts::PROBE,
            Command::Json => texts::JSON,
            Command::Picture => texts::PICTURE,
            Command::Explain => texts::EXPLAIN,
            Command::Version => texts::VERSION,
        }
    }
}
