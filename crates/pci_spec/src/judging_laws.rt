//! Laws of judging and of soundness. These functions do nothing: each contract is a law.

ghost use Rattle.pci_spec.specs.JudgingLaws.{SingleWithoutClashes, HomeWithoutUnreached, LeastUnreachedIsFirst, LeastClashIsFirst, LeastSplitIsFirst};
ghost use Rattle.pci_spec.specs.AllFaultsLaws.{EmptyWhereNoneFails, FirstLineIsFirst, LineWhereNotHome, SingleWithoutSeconds};
ghost use Rattle.pci_spec.specs.WhyLaws.{LeastPlaceIsHome};
ghost use Rattle.pci_spec.specs.RecordLaws.{RecordsSettleClaims};
ghost use Rattle.pci_spec.specs.SoundLaws.{ChainWithoutFaults, SoundWithoutFaults};

/// Single and home are the want of the faults of judging.
pub fn judging_finds_what_fails()
    ensures single { SingleWithoutClashes }
    ensures home { HomeWithoutUnreached }
{}

/// Of each kind of fault of judging the least is the first.
pub fn the_least_fault_is_first()
    ensures unreached { LeastUnreachedIsFirst }
    ensures clash { LeastClashIsFirst }
    ensures split { LeastSplitIsFirst }
{}

/// A list of all faults of judging leaves nothing out.
pub fn a_list_of_all_is_whole()
    ensures empty { EmptyWhereNoneFails }
    ensures first { FirstLineIsFirst }
    ensures home { LineWhereNotHome }
    ensures seconds { SingleWithoutSeconds }
{}

/// At the place that is told for a region it would be home, and clash with none.
pub fn told_places_are_home()
    ensures { LeastPlaceIsHome }
{}

/// A system is sound exactly where no fault is there.
pub fn sound_systems_have_no_fault()
    ensures chain { ChainWithoutFaults }
    ensures sound { SoundWithoutFaults }
{}

/// Records of functions settle which of their regions claim an address.
pub fn records_tell_claims()
    ensures { RecordsSettleClaims }
{}
