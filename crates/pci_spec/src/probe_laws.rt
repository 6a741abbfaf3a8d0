//! Laws of probes. These functions do nothing: each contract is a law.

ghost use Rattle.pci_spec.specs.ProbeLaws.{ReadableWithoutFaults, AlikeClaimTheSame, GreaterClaimAsMuch, GreaterHaveTheFaults, AlikeHaveTheSameFaults, AlikeHaveTheSameFirstFault, AlikeAreSoundTogether};
ghost use Rattle.pci_spec.specs.DerivedLaws.{DerivedIsToldAlike, DerivedSizesAreOwn, DerivedHasTheSameFaults, DerivedHasTheSameFirstFault, DerivedIsSoundWithOwn, DumpHasTheSameVerdict, LeastIsToldAtMost, FaultsAtLeastSizesStand, FaultsOfDumpStand};

/// Functions are readable exactly where none of the faults 20 to 26 and 31 is there.
pub fn readable_functions_have_no_fault_of_reading()
    ensures { ReadableWithoutFaults }
{}

/// What a function claims is settled by its image and the sizes of what is enabled.
pub fn sizes_of_the_enabled_settle_claims()
    ensures { AlikeClaimTheSame }
{}

/// So is the verdict on a system: which faults it has, which is the first, and whether it is sound.
pub fn sizes_of_the_enabled_settle_the_verdict()
    ensures faults { AlikeHaveTheSameFaults }
    ensures first { AlikeHaveTheSameFirstFault }
    ensures sound { AlikeAreSoundTogether }
{}

/// With greater sizes a function claims as much at least, and no fault of a system goes.
pub fn greater_sizes_keep_faults()
    ensures claims { GreaterClaimAsMuch }
    ensures faults { GreaterHaveTheFaults }
{}

/// A probe that is derived from true lines shows the sizes of what is enabled that the function's own shows.
pub fn derived_probes_are_told_alike()
    ensures { DerivedIsToldAlike }
{}

/// On or off, each BAR that shows something has its own size in such a probe.
pub fn derived_sizes_are_own()
    ensures { DerivedSizesAreOwn }
{}

/// So a system has the same faults, the same first one, and the same soundness with derived probes as with its own.
pub fn derived_probes_give_the_same_verdict()
    ensures faults { DerivedHasTheSameFaults }
    ensures first { DerivedHasTheSameFirstFault }
    ensures sound { DerivedIsSoundWithOwn }
{}

/// And so has a dump with the probe that is derived for it, where what is told is true of the machine.
pub fn derived_probes_judge_dumps_as_the_machine_does()
    ensures { DumpHasTheSameVerdict }
{}

/// Where the least size is assumed of what is enabled and isn't told, each fault that is found is there.
pub fn faults_at_least_sizes_stand()
    ensures function { LeastIsToldAtMost }
    ensures system { FaultsAtLeastSizesStand }
    ensures dump { FaultsOfDumpStand }
{}
