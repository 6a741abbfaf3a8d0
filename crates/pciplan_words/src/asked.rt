//! What a command line asks for, in its own words, and how it is read from them.
ghost use Rattle.std.specs.Prelude.{◌≡◌, ◌≢◌, ◌⊎◌, List, ℕ, map, MatchOption, MatchResult};
ghost use Rattle.clap.specs.Words.{found_of, kind_of, rows_of};
ghost use Rattle.clap.specs.declared.error.kind.ErrorKind.{ErrorKind};
ghost use Rattle.pciplan_words.specs.CommandWords.{IsGiven, HasNoLine, HasFaultsWords, HasMapWords, HasPlanWords, HasSettleWords, AreSlotsForSpares, AreSlotsWithoutSpares, IsTaskAsked, IsSaid};
ghost use Rattle.pciplan_words.specs.declared.asked.Asked.{Asked};
ghost use Rattle.pciplan_words.specs.declared.asked.PlanWords.{PlanWords};
ghost use Rattle.pciplan_words.specs.declared.asked.SettleWords.{SettleWords};
ghost use Rattle.pciplan_words.specs.declared.asked.WordsFault.{WordsFault};

use crate::commands::{
    ALSO, ANEW, DUMP, EXACT, FIXED, HOST_IO, HOST_MEM, IO, LEAST, MEM, MODEL, PREF, PROBE, ROOT,
    SLOTS, SPARE, WHY, WRITES, command,
};
use clap::ArgMatches;
use std::alloc::{AllocError, Global};

/// The words of `plan`'s options.
#[derive(Clone, Copy)]
pub struct PlanWords<'a> {
    /// The list of root buses, where there is one.
    pub root: Option<&'a str>,
    /// The pools of I/O, of memory and of prefetchable memory.
    pub io: &'a str,
    pub mem: &'a str,
    pub pref: &'a str,
    /// Whether the writes are asked for, and not the planned dump.
    pub writes: bool,
    /// Whether it is asked for what a class that has no room lacks.
    pub why: bool,
}

/// The words of `settle`'s options.
#[derive(Clone, Copy)]
pub struct SettleWords<'a> {
    /// The list of root buses, where there is one.
    pub root: Option<&'a str>,
    /// The words by which functions are taken, where there are any.
    pub model: Option<&'a str>,
    /// The lists of ranges of I/O, of memory and of prefetchable memory.
    pub io: &'a str,
    pub mem: &'a str,
    pub pref: &'a str,
    /// The list of slots whose functions may not be written, where there is one.
    pub fixed: Option<&'a str>,
    /// Whether nothing is left where it stands.
    pub anew: bool,
    /// How much room is wanted behind hot-plug slots, where it is said.
    pub spare: Option<&'a str>,
    /// The list of bridges with a hot-plug slot, where it is said. It is said beside `spare` alone.
    pub slots: Option<&'a str>,
    /// The path of a text of told ranges, where there is one.
    pub also: Option<&'a str>,
    /// Whether the writes are asked for, and not the settled dump.
    pub writes: bool,
}

/// The words of the options of `faults`.
#[derive(Clone, Copy)]
pub struct FaultsWords<'a> {
    /// The list of root buses, where there is one.
    pub root: Option<&'a str>,
    /// The words by which functions are taken, where there are any.
    pub model: Option<&'a str>,
    /// The list of I/O addresses that the host sends to its root buses, where it is said.
    pub host_io: Option<&'a str>,
    /// The list of memory addresses that the host sends to its root buses, where it is said.
    pub host_mem: Option<&'a str>,
    /// The path of a text of told ranges, where there is one.
    pub also: Option<&'a str>,
    /// Whether what stands behind each fault is asked for.
    pub why: bool,
}

/// The words of the options of `map`.
#[derive(Clone, Copy)]
pub struct MapWords<'a> {
    /// The list of root buses, where there is one.
    pub root: Option<&'a str>,
    /// The words by which functions are taken, where there are any.
    pub model: Option<&'a str>,
    /// The list of I/O addresses that the host sends to its root buses, where it is said.
    pub host_io: Option<&'a str>,
    /// The list of memory addresses that the host sends to its root buses, where it is said.
    pub host_mem: Option<&'a str>,
    /// The path of a text of told ranges, where there is one.
    pub also: Option<&'a str>,
}

/// The task that is asked for, with the words of its options.
#[derive(Clone, Copy)]
pub enum Asked<'a> {
    /// The listing.
    Show,
    /// The verdict, with the list of root buses where there is one.
    Check { root: Option<&'a str> },
    /// All faults at once.
    Faults(FaultsWords<'a>),
    /// The address map.
    Map(MapWords<'a>),
    /// The sizing run.
    Size,
    /// The plan.
    Plan(PlanWords<'a>),
    /// The settled dump.
    Settle(SettleWords<'a>),
    /// The derived probe, whether it has to be exact, and whether the least size is taken where an enabled register has none.
    Probe { exact: bool, least: bool },
}

/// What the words of a command line say: the task with the words of its options, and the paths of the two texts.
#[derive(Clone, Copy)]
pub struct Given<'a> {
    pub asked: Asked<'a>,
    pub dump: &'a str,
    pub second: &'a str,
}

/// Why words say nothing.
#[derive(Clone, Copy, Debug, PartialEq, Eq)]
pub enum WordsFault {
    /// They are no command line.
    Usage,
    /// 2: a growth was refused.
    Memory,
}

impl From<AllocError> for WordsFault {
    ghost from_gives = { λ _ fault. fault ≡ WordsFault.Memory };

    fn from(_error: AllocError) -> WordsFault {
        WordsFault::Memory
    }
}

/// A line that is refused, or that asks for help, is a fault of usage.
impl From<clap::Error> for WordsFault {
    ghost from_gives = { λ error fault. ((kind_of error ≡ ErrorKind.OutOfMemory)
        × (fault ≡ WordsFault.Memory))
        ⊎ ((kind_of error ≢ ErrorKind.OutOfMemory) × (fault ≡ WordsFault.Usage)) };

    fn from(error: clap::Error) -> WordsFault {
        if error.kind() == clap::error::ErrorKind::OutOfMemory {
            WordsFault::Memory
        } else {
            WordsFault::Usage
        }
    }
}

/// The words of the options of `faults`.
fn faults_words<'a>(found: &ArgMatches<'a>) -> FaultsWords<'a>
    ensures { HasFaultsWords (rows_of (found_of found.now)) result }
{
    FaultsWords {
        root: found.get_str(ROOT),
        model: found.get_str(MODEL),
        host_io: found.get_str(HOST_IO),
        host_mem: found.get_str(HOST_MEM),
        also: found.get_str(ALSO),
        why: found.get_flag(WHY),
    }
}

/// The words of the options of `map`.
fn map_words<'a>(found: &ArgMatches<'a>) -> MapWords<'a>
    ensures { HasMapWords (rows_of (found_of found.now)) result }
{
    MapWords {
        root: found.get_str(ROOT),
        model: found.get_str(MODEL),
        host_io: found.get_str(HOST_IO),
        host_mem: found.get_str(HOST_MEM),
        also: found.get_str(ALSO),
    }
}

/// The words of the options of `plan`.
#[tactic(auto, using(crate::proofs::CommandWords::word_there, crate::proofs::CommandWords::word_missing, crate::proofs::CommandWords::flag_there))]
fn plan_words<'a>(found: &ArgMatches<'a>) -> Option<PlanWords<'a>>
    ensures { MatchOption result
        ((words : PlanWords) → HasPlanWords (rows_of (found_of found.now)) words → ⊥)
        (HasPlanWords (rows_of (found_of found.now))) }
{
    Some(PlanWords {
        root: found.get_str(ROOT),
        io: found.get_str(IO)?,
        mem: found.get_str(MEM)?,
        pref: found.get_str(PREF)?,
        writes: found.get_flag(WRITES),
        why: found.get_flag(WHY),
    })
}

/// The words of the options of `settle`.
#[tactic(auto, using(crate::proofs::CommandWords::word_missing))]
fn settle_words<'a>(found: &ArgMatches<'a>) -> Option<SettleWords<'a>>
    ensures { MatchOption result
        ((words : SettleWords) → HasSettleWords (rows_of (found_of found.now)) words → ⊥)
        (HasSettleWords (rows_of (found_of found.now))) }
{
    Some(SettleWords {
        root: found.get_str(ROOT),
        model: found.get_str(MODEL),
        io: found.get_str(IO)?,
        mem: found.get_str(MEM)?,
        pref: found.get_str(PREF)?,
        fixed: found.get_str(FIXED),
        anew: found.get_flag(ANEW),
        spare: found.get_str(SPARE),
        slots: found.get_str(SLOTS),
        also: found.get_str(ALSO),
        writes: found.get_flag(WRITES),
    })
}

/// The words, where slots are said for spares alone.
fn slots_for_spares<'a>(words: SettleWords<'a>) -> Option<SettleWords<'a>>
    ensures { MatchOption result (AreSlotsWithoutSpares words.entry)
        (λ w. (w ≡ words.entry) × AreSlotsForSpares w) }
{
    match (words.spare, words.slots) {
        (None, Some(_)) => None,
        _ => Some(words),
    }
}

/// The task of this name, with the words of its options.
#[tactic(auto, using(crate::proofs::CommandWords::word_there, crate::proofs::CommandWords::flag_there, crate::proofs::CommandWords::slots_alone))]
fn asked_of<'a>(name: &str, found: &ArgMatches<'a>) -> Option<Asked<'a>>
    ensures { MatchOption result
        ((asked : Asked) → IsTaskAsked name.now (rows_of (found_of found.now)) asked → ⊥)
        (IsTaskAsked name.now (rows_of (found_of found.now))) }
{
    match name {
        "show" => Some(Asked::Show),
        "check" => Some(Asked::Check {
            root: found.get_str(ROOT),
        }),
        "faults" => Some(Asked::Faults(faults_words(found))),
        "map" => Some(Asked::Map(map_words(found))),
        "size" => Some(Asked::Size),
        "plan" => Some(Asked::Plan(plan_words(found)?)),
        "settle" => Some(Asked::Settle(slots_for_spares(settle_words(found)?)?)),
        "probe" => Some(Asked::Probe {
            exact: found.get_flag(EXACT),
            least: found.get_flag(LEAST),
        }),
        _ => None,
    }
}

/// What the words of a subcommand say.
#[tactic(auto, using(crate::proofs::CommandWords::word_there, crate::proofs::CommandWords::word_missing))]
fn given_of<'a>(name: &str, found: &ArgMatches<'a>) -> Option<Given<'a>>
    ensures { MatchOption result ((asked : Asked) (dump second : List ℕ)
        → IsSaid name.now (rows_of (found_of found.now)) asked dump second → ⊥)
        (λ given. IsSaid name.now
        (rows_of (found_of found.now)) given.asked given.dump.now given.second.now) }
{
    Some(Given {
        asked: asked_of(name, found)?,
        dump: found.get_str(DUMP)?,
        second: found.get_str(PROBE)?,
    })
}

/// What the words after the program's name say.
///
/// # Errors
///
/// `Usage` where they are no command line, `Memory` where a growth was refused.
pub fn words_given<'a>(alloc: Global, words: &'a [&'a str]) -> Result<Given<'a>, WordsFault>
    ensures { MatchResult result
        (λ given. IsGiven (map (λ w. w.now) words.now) given.asked given.dump.now given.second.now)
        (λ fault. (fault ≡ WordsFault.Memory)
        ⊎ ((fault ≡ WordsFault.Usage) × HasNoLine (map (λ w. w.now) words.now))) }
{
    let matches = command(alloc)?.try_get_matches_from(words)?;
    let (name, found) = matches.subcommand().ok_or(WordsFault::Usage)?;
    given_of(name, found).ok_or(WordsFault::Usage)
}
