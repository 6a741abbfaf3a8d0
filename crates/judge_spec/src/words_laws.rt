//! Laws of words. These functions do nothing: each contract is a law.

ghost use Rattle.judge_spec.specs.WordsLaws.{NoWordsChangeNothing, SlotsAreKept, OffByWordsClaimsNothing, OffShowsNoState, OutOfResetIs, PositiveIs, DeviceLeadsNowhere, SocketIsBare, SocketShowsNoState, ShownWindowsAreLawful, ShownWindowsKeepPages, TakenHasNoIsaEnable, TakenHasNoPaletteSnoop, TakenHasNoVgaEnable, UnclaimedLeavesOthers, NoPartsChangeNothing, IdeLeavesOthers, UnnumberedLeavesOthers, UnnumberedLeavesNumbers, CardbusLeavesOthers, OthersLeaveCardbus, IsaLeavesOthers, WindowsLeaveOthers, BothLeaveOthers, IdeAloneLeavesOthers, UnnumberedAloneLeavesOthers};
ghost use Rattle.judge_spec.specs.AsleepLaws.{AsleepAreDetermined, AsleepAreListed, NoneIsAsleepWithoutPower, AsleepEnableNothing};

/// Without words a system is taken as it is.
pub fn no_words_change_nothing()
    ensures same { NoWordsChangeNothing }
{}

/// Each function stands where it stood.
pub fn slots_are_kept()
    ensures kept { SlotsAreKept }
{}

/// What is switched off claims nothing and is in no power state; a bridge out of reset, or one that decodes its windows
/// alone, has none of the faults that it had; and a bridge without buses leads nowhere.
pub fn changes_do_what_they_are_for()
    ensures off { OffByWordsClaimsNothing }
    ensures state { OffShowsNoState }
    ensures reset { OutOfResetIs }
    ensures positive { PositiveIs }
    ensures device { DeviceLeadsNowhere }
{}

/// A CardBus bridge that is taken as a device decodes to no address, and shows no power state.
pub fn sockets_are_bare_devices()
    ensures bare { SocketIsBare }
    ensures state { SocketShowsNoState }
{}

/// A window that shows one has no 26 once it is taken as that one. It keeps its pages, unless it shows and reads back 0.
pub fn shown_windows_decode()
    ensures lawful { ShownWindowsAreLawful }
    ensures pages { ShownWindowsKeepPages }
{}

/// What is taken with a word for legacy parts is no bridge with VGA Enable.
pub fn taken_functions_have_no_vga_enable()
    ensures none { TakenHasNoVgaEnable }
{}

/// What is taken with `isa` is no bridge with ISA Enable.
pub fn taken_functions_have_no_isa_enable()
    ensures none { TakenHasNoIsaEnable }
{}

/// What is taken with `snoop` has no VGA Palette Snoop.
pub fn taken_functions_have_no_palette_snoop()
    ensures none { TakenHasNoPaletteSnoop }
{}

/// A system without a bridge that is alone of the class of subtractive decoding on its bus is taken with `unclaimed` as
/// without it.
pub fn unclaimed_leaves_others_alone()
    ensures { UnclaimedLeavesOthers }
{}

/// A function that can have no part for which a word counts is left as it is, whatever is wrong with it.
pub fn functions_without_parts_are_kept()
    ensures kept { NoPartsChangeNothing }
{}

/// The words `ide` and `unnumbered` leave each function alone that is no IDE controller, or no bridge without bus
/// numbers, whatever other words count.
pub fn words_leave_others_alone()
    ensures ide { IdeLeavesOthers }
    ensures unnumbered { UnnumberedLeavesOthers }
    ensures numbers { UnnumberedLeavesNumbers }
    ensures ide_alone { IdeAloneLeavesOthers }
    ensures unnumbered_alone { UnnumberedAloneLeavesOthers }
{}

/// The words `cardbus`, `isa` and `windows` leave each function alone that is no CardBus bridge, that has no ISA Enable, or
/// that has no window with a 26, whatever other words count. All other words but `snoop` leave a CardBus bridge
/// alone.
pub fn words_leave_other_headers_alone()
    ensures cardbus { CardbusLeavesOthers }
    ensures isa { IsaLeavesOthers }
    ensures windows { WindowsLeaveOthers }
    ensures both { BothLeaveOthers }
    ensures others { OthersLeaveCardbus }
{}

/// The functions that are taken as asleep have one list of slots, which is empty where `power` doesn't count.
pub fn sleepers_are_listed()
    ensures determined { AsleepAreDetermined }
    ensures listed { AsleepAreListed }
    ensures without { NoneIsAsleepWithoutPower }
{}

/// What is taken as asleep enables nothing.
pub fn sleepers_enable_nothing()
    ensures off { AsleepEnableNothing }
{}
