//! Laws of what is given. These functions do nothing: each contract is a law.

ghost use Rattle.judge_spec.specs.Laws.{StartsAnywhere, SameClaims, NoLegacyClaims, NoPaletteClaims, SameForwards, SamePasses, SameGets, SamePassedTo, NoneOutside, SameFaults, SameSound, SameWhy, SameText, SoundWithoutFaults, EmptyWhereNoneFails, LineWhereOutside, NoIsaEnable, NoVgaEnable, NoPaletteSnoop, AloneIsNotSubtractive};
ghost use Rattle.judge_spec.specs.IsaLaws.{IsaLeavesClaims, IsaLeavesForwards, IsaLeavesPasses, IsaTakesWhole};

/// With nothing given each word is the one without it.
pub fn nothing_given_changes_nothing()
    ensures starts { StartsAnywhere }
    ensures claims { SameClaims }
    ensures legacy { NoLegacyClaims }
    ensures palette { NoPaletteClaims }
    ensures forwards { SameForwards }
    ensures passes { SamePasses }
    ensures gets { SameGets }
    ensures passed { SamePassedTo }
    ensures outside { NoneOutside }
    ensures faults { SameFaults }
    ensures sound { SameSound }
{}

/// With nothing given reasons are those without it.
pub fn nothing_given_changes_no_reasons()
    ensures why { SameWhy }
    ensures text { SameText }
{}

/// A system is sound with what is given exactly where no fault is there, and a list of all faults leaves nothing out.
pub fn faults_are_what_fails()
    ensures sound { SoundWithoutFaults }
    ensures empty { EmptyWhereNoneFails }
    ensures outside { LineWhereOutside }
{}

/// Functions that are taken by a word have no VGA Enable.
pub fn taken_functions_have_no_vga_enable()
    ensures none { NoVgaEnable }
{}

/// Functions that are taken by the other word have no ISA Enable.
pub fn taken_functions_have_no_isa_enable()
    ensures none { NoIsaEnable }
{}

/// Functions that are taken by a third word have no VGA Palette Snoop.
pub fn taken_functions_have_no_palette_snoop()
    ensures none { NoPaletteSnoop }
{}

/// A bridge that is the only one of its class on its bus isn't subtractive any more where a fourth word takes it.
pub fn bridges_alone_are_not_subtractive()
    ensures { AloneIsNotSubtractive }
{}

/// A function without ISA Enable claims, forwards and passes what it does where nobody has it. What ISA Enable takes it
/// takes in blocks of 256 addresses.
pub fn isa_leaves_others_alone()
    ensures claims { IsaLeavesClaims }
    ensures forwards { IsaLeavesForwards }
    ensures passes { IsaLeavesPasses }
    ensures whole { IsaTakesWhole }
{}
