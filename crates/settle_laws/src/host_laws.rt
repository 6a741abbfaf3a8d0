//! Laws of a host that sends just what the lists have. These functions do nothing: each contract is a law.

ghost use Rattle.settle_laws.specs.HostLaws.{InListsWhereSent, SoundForHostIsSettled, SoundForHostIsSound, SoundForHostLiesInPlace};

/// Where the host sends each root bus just what the lists have for it, with a gap between any two ranges, what
/// is sound with that given is sound, in its place, and settled.
pub fn sound_systems_of_the_host_are_settled()
    ensures sent { InListsWhereSent }
    ensures sound { SoundForHostIsSound }
    ensures place { SoundForHostLiesInPlace }
    ensures settled { SoundForHostIsSettled }
{}
