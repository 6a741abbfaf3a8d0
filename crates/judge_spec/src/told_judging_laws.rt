//! Laws of judging with told ranges. These functions do nothing: each contract is a law.

ghost use Rattle.judge_spec.specs.ToldJudgingLaws.{SameClaimsOnBus, SameToldFaults, NoneNotListed, SameToldList, SameToldText, ToldOnlyAdds, HeldAreNotUnreached, HeldAreNotOutside, SameOrder, ToldEmptyWhereNoneFails, ToldSoundWithoutFaults, ToldListIsDetermined, ToldClaimAddresses};

/// With nothing told each word of judging is the one without it, and so are the list of all faults and its text.
pub fn nothing_told_changes_no_list()
    ensures claims { SameClaimsOnBus }
    ensures faults { SameToldFaults }
    ensures listed { NoneNotListed }
    ensures list { SameToldList }
    ensures text { SameToldText }
{}

/// What is told takes no fault away, and claims addresses of its space. 60 and 63 name no held range, and registers keep
/// their order.
pub fn told_ranges_only_add()
    ensures adds { ToldOnlyAdds }
    ensures unreached { HeldAreNotUnreached }
    ensures outside { HeldAreNotOutside }
    ensures order { SameOrder }
    ensures addresses { ToldClaimAddresses }
{}

/// A list of all faults of judging is empty exactly where at most one region claims an access, and each region is reached.
/// A system is sound with what is told exactly where no fault is there.
pub fn told_faults_are_what_fails()
    ensures empty { ToldEmptyWhereNoneFails }
    ensures sound { ToldSoundWithoutFaults }
{}

/// Two lists of all faults of a dump and its probe are equal, whatever is told.
pub fn told_lists_are_determined()
    ensures { ToldListIsDetermined }
{}
