//! Laws of bridges that take what no region of their bus claims. These functions do nothing: each contract is a law.

ghost use Rattle.judge_spec.specs.UnclaimedLaws.{TakesWhatIsUnclaimed, NobodySharesWhatIsTaken, TakingIsDetermined, TakingClaimsNothing, TakingComesLast, TakingLeavesForwards, TakingLeavesPasses, TakingAddsNoClash};

/// A bridge takes just the addresses of an enabled space that no region of its bus claims, so nobody shares one with what it
/// takes. What bridges take is one list.
pub fn bridges_take_what_is_unclaimed()
    ensures unclaimed { TakesWhatIsUnclaimed }
    ensures alone { NobodySharesWhatIsTaken }
    ensures determined { TakingIsDetermined }
{}

/// Nobody claims an address by what is taken. A bridge that takes nothing forwards and passes what it does where nobody
/// takes anything.
pub fn taking_leaves_others_alone()
    ensures claims { TakingClaimsNothing }
    ensures last { TakingComesLast }
    ensures forwards { TakingLeavesForwards }
    ensures passes { TakingLeavesPasses }
{}

/// What a bridge takes adds no clash on its own bus.
pub fn taking_adds_no_clash()
    ensures { TakingAddsNoClash }
{}
