//! Laws of what is left out of settling. These functions do nothing: each contract is a law.

ghost use Rattle.settle_answer_laws.specs.LeftOutLaws.{BlocksWithout, LeftOutAreOff, SoundWith, SoundWithout};

/// A device that decodes nothing changes nothing of soundness.
pub fn off_devices_can_be_left_out()
    ensures without { SoundWithout }
    ensures with_them { SoundWith }
{}

/// Which devices are left out of a dump and its probe, and that leaving them out of the blocks leaves them out of the system.
pub fn off_devices_are_left_out()
    ensures off { LeftOutAreOff }
    ensures blocks { BlocksWithout }
{}
