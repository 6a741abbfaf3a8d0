//! The settling that a command line asks for.
ghost use Rattle.std.specs.Prelude.{◌≡◌, ◌⊎◌, MatchResult};
ghost use Rattle.pciplan_cli.specs.SettleAsked.{AreFixed, AreOptionSlots, AreOptionSpares, HasNoListWord, HasNoSlotsWord, HasNoSpareWord, IsListOf, IsSettlingAskedFor, IsSettlingRefused, SpellsSlots, printed_of};
ghost use Rattle.pciplan_lists.specs.ListWords.{HasListedRanges};
ghost use Rattle.pciplan_tasks.specs.declared.failure.Failure.{Failure};

use crate::option_words::{roots_of, words_of};
use pci_base::range::RootRange;
use pci_base::slot::Slot;
use pci_base::window_kind::ByKind;
use pci_script::form::Form as ScriptForm;
use pciplan_lists::list_word::list_of_word;
use pciplan_lists::slot_list::slots_of_word;
use pciplan_lists::spare_word::spares_of_word;
use pciplan_tasks::failure::{Failure, PoolOption};
use pciplan_tasks::task::{Also, Printed, SettleLists, SettleRequest, Task};
use pciplan_words::asked::SettleWords;
use pciplan_words::forms::Form;
use std::alloc::Global;

/// The list of the word of an option.
fn list_of(alloc: Global, word: &str, option: PoolOption) -> Result<Vec<RootRange>, Failure>
    ensures { MatchResult result (IsListOf word.entry)
        (λ failure. ((failure ≡ Failure.Memory) × HasListedRanges word.now)
        ⊎ ((failure ≡ Failure.Pool option) × HasNoListWord word.entry)) }
{
    list_of_word(alloc, word)?.ok_or(Failure::Pool(option))
}

/// The slots of the word of `--fixed`, none where there is no word.
fn fixed_of(alloc: Global, word: Option<&str>) -> Result<Vec<Slot>, Failure>
    ensures { MatchResult result (AreFixed word.entry)
        (λ failure. ((failure ≡ Failure.Memory) × SpellsSlots word.entry)
        ⊎ ((failure ≡ Failure.Fixed) × HasNoSlotsWord word.entry)) }
{
    match word {
        None => Ok(Vec::new(alloc)),
        Some(list) => slots_of_word(alloc, list)?.ok_or(Failure::Fixed),
    }
}

/// How many addresses of each class the word of `--spare` wants, 0 where there is no word.
fn spares_of(word: Option<&str>) -> Result<ByKind<u64>, Failure>
    ensures { MatchResult result (AreOptionSpares word.entry)
        (λ failure. (failure ≡ Failure.Spare) × HasNoSpareWord word.entry) }
{
    match word {
        None => Ok(ByKind {
            io: 0,
            memory: 0,
            prefetchable: 0,
        }),
        Some(spare) => spares_of_word(spare).ok_or(Failure::Spare),
    }
}

/// The slots of the word of `--slots`, None where there is no word.
fn slots_of(alloc: Global, word: Option<&str>) -> Result<Option<Vec<Slot>>, Failure>
    ensures { MatchResult result (AreOptionSlots word.entry)
        (λ failure. ((failure ≡ Failure.Memory) × SpellsSlots word.entry)
        ⊎ ((failure ≡ Failure.Slots) × HasNoSlotsWord word.entry)) }
{
    match word {
        None => Ok(None),
        Some(list) => {
            let slots = slots_of_word(alloc, list)?.ok_or(Failure::Slots)?;
            Ok(Some(slots))
        }
    }
}

/// What is to be printed, by the form that is named and by whether the writes are asked for.
fn printed_of(form: Option<Form>, writes: bool) -> Printed
    ensures { result ≡ printed_of form writes }
{
    match (form, writes) {
        (Some(Form::Setpci), _) => Printed::Script(ScriptForm::Setpci),
        (Some(Form::Grub), _) => Printed::Script(ScriptForm::Grub),
        (None, true) => Printed::Writes,
        (None, false) => Printed::Dump,
    }
}

/// The settling that is asked for. What a third text tells isn't read yet.
pub fn settling_of(
    alloc: Global,
    asked: &SettleWords<'_>,
    form: Option<Form>,
) -> Result<Task, Failure>
    ensures { MatchResult result (IsSettlingAskedFor form asked.now) (IsSettlingRefused asked.now) }
{
    let roots = roots_of(asked.root).ok_or(Failure::Root)?;
    let words = words_of(asked.model)?;
    let lists = SettleLists {
        io: list_of(alloc, asked.io, PoolOption::Io)?,
        mem: list_of(alloc, asked.mem, PoolOption::Mem)?,
        pref: list_of(alloc, asked.pref, PoolOption::Pref)?,
    };
    let request = SettleRequest {
        roots,
        lists,
        fixed: fixed_of(alloc, asked.fixed)?,
        anew: asked.anew,
        also: Also::nothing(alloc),
        words,
        spares: spares_of(asked.spare)?,
        slots: slots_of(alloc, asked.slots)?,
    };
    Ok(Task::Settle {
        request,
        printed: printed_of(form, asked.writes),
    })
}
