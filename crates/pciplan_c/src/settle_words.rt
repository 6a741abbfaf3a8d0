//! The words by which C says what is asked of settling.
ghost use Rattle.std.specs.Prelude.{◌≡◌, IfOk, IfErr, MatchOption, MatchResult};
ghost use Rattle.std.specs.Option.{option_map};
ghost use Rattle.pciplan_lists.specs.ListWords.{IsListWord};
ghost use Rattle.pciplan_c.specs.SettleWords.{AreFixedBy, AreNoHotPlugSlots, AreNoSlots, AreSlotsBy, AreSparesBy, HasNoSpares, IsAskedBy, IsNoList, IsNotAsked, asked_with_told};

use pci_base::memory::Refused;
use pci_base::range::RootRange;
use pci_base::slot::Slot;
use pci_base::window_kind::ByKind;
use pci_dump::told_list::ToldList;
use pciplan_lists::list_word::list_of_word;
use pciplan_lists::slot_list::slots_of_word;
use pciplan_lists::spare_word::spares_of_word;
use std::alloc::Allocator;
use std::fmt;

/// What is asked of settling, each word as on the command line.
#[repr(C)]
#[derive(Clone, Copy, Debug)]
pub struct SettleWords<'a> {
    /// The ranges of I/O: `none`, or ranges joined by commas, each `A-B` of all root buses or `bb:A-B` of one.
    pub io: &'a [u8],
    /// Those of memory.
    pub mem: &'a [u8],
    /// Those of prefetchable memory.
    pub pref: &'a [u8],
    /// The slots whose registers may not be written, joined by commas, each above the one before it; none where it is empty.
    pub fixed: &'a [u8],
    /// How many addresses are wanted behind each hot-plug slot: one to three of `io:SIZE`, `mem:SIZE` and `pref:SIZE` in this
    /// order, joined by commas; none where it is empty.
    pub spare: &'a [u8],
    /// The slots of the bridges that have such a slot, as `fixed` lists its own: where it is empty, those of the dump whose
    /// registers say so. It is said beside `spare` alone.
    pub slots: &'a [u8],
    /// A text of ranges that functions answer beside their BARs and ROMs; nothing is told where it is empty.
    pub also: &'a [u8],
    /// 0 where what stands keeps its place, else all is placed anew but what leads to a told range.
    pub anew: u8,
}

/// A word of settling.
#[derive(Clone, Copy, Debug, PartialEq, Eq)]
pub enum SettleWord {
    Io,
    Mem,
    Pref,
    Fixed,
    Spare,
    Slots,
}

impl SettleWord {
    ghost use Rattle.std.specs.Prelude.{◌≡◌};
    ghost use Rattle.pciplan_c.specs.NoWrites.{settle_word_text};

    /// The message where it has no meaning.
    pub fn message(self) -> &'static str
        ensures { result.now ≡ settle_word_text self }
    {
        match self {
            SettleWord::Io => "pool io",
            SettleWord::Mem => "pool mem",
            SettleWord::Pref => "pool pref",
            SettleWord::Fixed => "fixed",
            SettleWord::Spare => "spare",
            SettleWord::Slots => "slots",
        }
    }
}

/// The message where it has no meaning.
impl fmt::Display for SettleWord {
    ghost use Rattle.std.specs.Prelude.{Some};
    ghost use Rattle.pciplan_c.specs.NoWrites.{settle_word_text};

    ghost output = { λ w. Some (settle_word_text w) };

    fn fmt<W: fmt::Write>(&self, f: &mut fmt::Formatter<W>) -> fmt::Result {
        let message = self.message();
        write!(f, "{message}")
    }
}

/// What is asked of settling.
#[derive(Drop)]
pub struct Asked<A: Allocator> {
    pub io: Vec<RootRange, A>,
    pub mem: Vec<RootRange, A>,
    pub pref: Vec<RootRange, A>,
    /// The functions whose registers may not be written.
    pub fixed: Vec<Slot, A>,
    /// How many addresses of each class are wanted behind each hot-plug slot.
    pub spares: ByKind<u64>,
    /// The bridges that have such a slot; None: those of the dump whose registers say so.
    pub slots: Option<Vec<Slot, A>>,
    /// Nothing is placed on these ranges.
    pub told: ToldList<A>,
    /// Whether all is placed anew, but for told ranges and what leads to them.
    pub anew: bool,
}

impl<A: Allocator> Asked<A> {
    /// The same with these ranges.
    pub fn with_told(self, told: ToldList<A>) -> Asked<A>
        ensures { result ≡ asked_with_told self told }
    {
        Asked { told, ..self }
    }
}

/// The ranges of a list.
fn list_of<A: Allocator>(
    alloc: A,
    word: &[u8],
    named: SettleWord,
) -> Result<Vec<RootRange, A>, Refused<SettleWord>>
    ensures { MatchResult result (λ list. IsListWord word.now list.items) (IsNoList named word.now) }
{
    let Ok(text) = str::from_utf8(word) else {
        return Err(Refused::Fault(named));
    };
    match list_of_word(alloc, text)? {
        Some(list) => Ok(list),
        None => Err(Refused::Fault(named)),
    }
}

/// The slots of a list, none of an empty one.
fn fixed_of<A: Allocator>(alloc: A, word: &[u8]) -> Result<Vec<Slot, A>, Refused<SettleWord>>
    ensures { MatchResult result (λ slots. AreFixedBy word.now slots.items) (AreNoSlots word.now) }
{
    if word.is_empty() {
        return Ok(Vec::new(alloc));
    }
    let Ok(text) = str::from_utf8(word) else {
        return Err(Refused::Fault(SettleWord::Fixed));
    };
    match slots_of_word(alloc, text)? {
        Some(slots) => Ok(slots),
        None => Err(Refused::Fault(SettleWord::Fixed)),
    }
}

/// How many addresses of each class a word wants, 0 where it is empty.
fn spares_of(word: &[u8]) -> Option<ByKind<u64>>
    ensures { MatchOption result (HasNoSpares word.now) (AreSparesBy word.now) }
{
    if word.is_empty() {
        return Some(ByKind {
            io: 0,
            memory: 0,
            prefetchable: 0,
        });
    }
    let Ok(text) = str::from_utf8(word) else {
        return None;
    };
    spares_of_word(text)
}

/// The bridges of a list, which has a meaning beside a word of spares alone; None of an empty one.
fn hot_plug_slots_of<A: Allocator>(
    alloc: A,
    spare: &[u8],
    word: &[u8],
) -> Result<Option<Vec<Slot, A>>, Refused<SettleWord>>
    ensures { MatchResult result
        (λ slots. AreSlotsBy spare.now word.now (option_map (λ s. s.items) slots))
        (AreNoHotPlugSlots spare.now word.now) }
{
    if word.is_empty() {
        return Ok(None);
    }
    if spare.is_empty() {
        return Err(Refused::Fault(SettleWord::Slots));
    }
    let Ok(text) = str::from_utf8(word) else {
        return Err(Refused::Fault(SettleWord::Slots));
    };
    match slots_of_word(alloc, text)? {
        Some(slots) => Ok(Some(slots)),
        None => Err(Refused::Fault(SettleWord::Slots)),
    }
}

/// What words ask of settling. The text of ranges isn't read, so nothing is told so far.
///
/// # Errors
///
/// The first word that has no meaning, in their order, unless a growth was refused for a word before it: then `Memory`.
pub fn asked_of<A: Allocator + Copy>(
    alloc: A,
    words: &SettleWords<'_>,
) -> Result<Asked<A>, Refused<SettleWord>>
    ensures asked { IfOk result (IsAskedBy words.now) }
    ensures why { IfErr result (IsNotAsked words.now) }
{
    let io = list_of(alloc, words.io, SettleWord::Io)?;
    let mem = list_of(alloc, words.mem, SettleWord::Mem)?;
    let pref = list_of(alloc, words.pref, SettleWord::Pref)?;
    let fixed = fixed_of(alloc, words.fixed)?;
    let Some(spares) = spares_of(words.spare) else {
        return Err(Refused::Fault(SettleWord::Spare));
    };
    let slots = hot_plug_slots_of(alloc, words.spare, words.slots)?;
    Ok(Asked {
        io,
        mem,
        pref,
        fixed,
        spares,
        slots,
        told: ToldList::empty(alloc),
        anew: words.anew != 0,
    })
}
