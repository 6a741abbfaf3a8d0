//! The commands of the command line, as data that one loop hands to `clap`.
ghost use Rattle.std.specs.Prelude.{◌≡◌, false, fold, IfOk};
ghost use Rattle.clap.specs.Words.{app_of, rule_of};
ghost use Rattle.clap.specs.declared.builder.command.Command.TheViews.{out-Command};
ghost use Rattle.pciplan_words.specs.CommandWords.{commands};
ghost use Rattle.pciplan_words.specs.FurtherWords.{further_commands};
ghost use Rattle.pciplan_words.specs.Arguments.{app_of_subcommand, argument_rule, with_argument, with_entry};

use clap::{Arg, ArgAction, Command};
use std::alloc::{AllocError, Global};

/// The names of the two texts among the words. The second text of `probe` is the sizes.
pub const DUMP: &str = "DUMP";

pub const PROBE: &str = "PROBE";

/// The name of the option that lists the root buses.
pub const ROOT: &str = "root";

/// The name of the option that lists the words by which functions are taken.
pub const MODEL: &str = "model";

/// The names of the options that list the addresses that the host sends to its root buses, of I/O and of memory.
pub const HOST_IO: &str = "host-io";

pub const HOST_MEM: &str = "host-mem";

/// The name of the option that names a text of the addresses that functions answer beside their BARs and ROMs.
pub const ALSO: &str = "also";

/// The name of the option that asks for what stands behind faults.
pub const WHY: &str = "why";

/// The name of the option that asks for the writes of a plan or of settling.
pub const WRITES: &str = "writes";

/// The name of the option that lists the slots whose functions may not be written.
pub const FIXED: &str = "fixed";

/// The name of the option that leaves nothing where it stands.
pub const ANEW: &str = "anew";

/// The name of the option that says how much room is wanted behind hot-plug slots.
pub const SPARE: &str = "spare";

/// The name of the option that lists the bridges with a hot-plug slot.
pub const SLOTS: &str = "slots";

/// The names of the options that name the pools, or lists of ranges.
pub const IO: &str = "io";

pub const MEM: &str = "mem";

pub const PREF: &str = "pref";

/// The name of the option that lets nothing be assumed.
pub const EXACT: &str = "exact";

/// The name of the option that lets the least size be assumed of enabled registers.
pub const LEAST: &str = "least";

/// What a subcommand takes, by its name.
#[derive(Clone, Copy)]
pub enum Argument<'a> {
    /// The path of a text.
    Path(&'a str),
    /// An option with a word.
    Word(&'a str),
    /// An option with a word, which has to be there.
    Required(&'a str),
    /// An option without a word.
    Flag(&'a str),
    /// A word that may be left out.
    Optional(&'a str),
}

/// The names of the words of `here` and `explain`.
pub const WHAT: &str = "WHAT";

pub const WORD: &str = "WORD";

/// The name of the option that names a PCI domain.
pub const DOMAIN: &str = "domain";

/// The name of the option that names the folder of a machine's `sys` and `proc`.
pub const FROM: &str = "from";

/// The name of the option that names a file with the kernel's log.
pub const LOG: &str = "log";

/// A subcommand by its name, and what it takes beside the two texts.
#[derive(Clone, Copy)]
pub struct Subcommand<'a> {
    pub name: &'a str,
    pub options: &'a [Argument<'a>],
}

/// What each subcommand takes.
const TEXTS: [Argument<'static>; 2] = [Argument::Path(DUMP), Argument::Path(PROBE)];

/// What `here` takes.
const LOOKING: [Argument<'static>; 4] = [
    Argument::Optional(WHAT),
    Argument::Word(DOMAIN),
    Argument::Word(FROM),
    Argument::Word(LOG),
];

/// What `explain` takes.
const EXPLAINING: [Argument<'static>; 1] = [Argument::Optional(WORD)];

/// The subcommands of `pciplan`.
const SUBCOMMANDS: [Subcommand<'static>; 8] = [
    Subcommand {
        name: "show",
        options: &[],
    },
    Subcommand {
        name: "check",
        options: &[Argument::Word(ROOT)],
    },
    Subcommand {
        name: "faults",
        options: &[
            Argument::Word(ROOT),
            Argument::Word(MODEL),
            Argument::Word(HOST_IO),
            Argument::Word(HOST_MEM),
            Argument::Word(ALSO),
            Argument::Flag(WHY),
        ],
    },
    Subcommand {
        name: "map",
        options: &[
            Argument::Word(ROOT),
            Argument::Word(MODEL),
            Argument::Word(HOST_IO),
            Argument::Word(HOST_MEM),
            Argument::Word(ALSO),
        ],
    },
    Subcommand {
        name: "size",
        options: &[],
    },
    Subcommand {
        name: "plan",
        options: &[
            Argument::Required(IO),
            Argument::Required(MEM),
            Argument::Required(PREF),
            Argument::Flag(WRITES),
            Argument::Flag(WHY),
            Argument::Word(ROOT),
        ],
    },
    Subcommand {
        name: "settle",
        options: &[
            Argument::Required(IO),
            Argument::Required(MEM),
            Argument::Required(PREF),
            Argument::Word(ROOT),
            Argument::Word(MODEL),
            Argument::Word(FIXED),
            Argument::Flag(ANEW),
            Argument::Word(SPARE),
            Argument::Word(SLOTS),
            Argument::Word(ALSO),
            Argument::Flag(WRITES),
        ],
    },
    Subcommand {
        name: "probe",
        options: &[Argument::Flag(EXACT), Argument::Flag(LEAST)],
    },
];

/// An argument as `clap` has it.
fn arg_of<'a>(alloc: Global, argument: Argument<'a>) -> Arg<'a>
    ensures rule { rule_of result ≡ argument_rule argument.entry }
    ensures local { result.global ≡ false }
{
    match argument {
        Argument::Path(name) => Arg::new(alloc, name).required(true),
        Argument::Word(name) => Arg::new(alloc, name).long(name),
        Argument::Required(name) => Arg::new(alloc, name).long(name).required(true),
        Argument::Flag(name) => Arg::new(alloc, name).long(name).action(ArgAction::SetTrue),
        Argument::Optional(name) => Arg::new(alloc, name),
    }
}

/// A command that takes these arguments, too.
fn with_arguments<'a>(
    alloc: Global,
    command: Command<'a>,
    arguments: &[Argument<'a>],
) -> Result<Command<'a>, AllocError>
    ensures app { IfOk result (λ command_after. app_of command_after
        ≡ fold with_argument (app_of command.entry) arguments.now) }
    ensures local { IfOk result (λ command_after. (out-Command command_after).has_globals
        ≡ (out-Command command.entry).has_globals) }
{
    let mut command = command;
    for argument in arguments {
        command = command.arg(arg_of(alloc, *argument))?;
    }
    Ok(command)
}

/// A subcommand as `clap` has it.
fn command_of<'a>(alloc: Global, subcommand: &Subcommand<'a>) -> Result<Command<'a>, AllocError>
    ensures app { IfOk result (λ command. app_of command ≡ app_of_subcommand subcommand.now) }
    ensures local { IfOk result (λ command. (out-Command command).has_globals ≡ false) }
{
    let texts: [Argument<'static>; 2] = TEXTS;
    let command = with_arguments(
        alloc,
        Command::new(alloc, subcommand.name),
        texts.as_slice(),
    )?;
    with_arguments(alloc, command, subcommand.options)
}

/// A command that has these subcommands, too.
fn with_subcommands<'a>(
    alloc: Global,
    command: Command<'a>,
    subcommands: &[Subcommand<'a>],
) -> Result<Command<'a>, AllocError>
    ensures { IfOk result (λ command_after. app_of command_after
        ≡ fold with_entry (app_of command.entry) subcommands.now) }
{
    let mut command = command;
    for subcommand in subcommands {
        command = command.subcommand(command_of(alloc, subcommand)?)?;
    }
    Ok(command)
}

/// `pciplan` with all that it takes.
pub fn command<'a>(alloc: Global) -> Result<Command<'a>, AllocError>
    ensures { IfOk result (λ command. app_of command ≡ commands) }
{
    let subcommands: [Subcommand<'static>; 8] = SUBCOMMANDS;
    let program = Command::new(alloc, "pciplan")
        .no_binary_name(true)
        .subcommand_required(true);
    with_subcommands(alloc, program, subcommands.as_slice())
}

/// `pciplan` with the commands that take no texts.
pub fn further_commands<'a>(alloc: Global) -> Result<Command<'a>, AllocError>
    ensures { IfOk result (λ command. app_of command ≡ further_commands) }
{
    let looking: [Argument<'static>; 4] = LOOKING;
    let explaining: [Argument<'static>; 1] = EXPLAINING;
    let here = with_arguments(alloc, Command::new(alloc, "here"), looking.as_slice())?;
    let explain = with_arguments(alloc, Command::new(alloc, "explain"), explaining.as_slice())?;
    let version = Command::new(alloc, "version");
    let program = Command::new(alloc, "pciplan")
        .no_binary_name(true)
        .subcommand_required(true);
    program
        .subcommand(here)?
        .subcommand(explain)?
        .subcommand(version)
}
