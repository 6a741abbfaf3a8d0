//! Laws of a sound start. These functions do nothing: each contract is a law.

ghost use Rattle.settle_laws.specs.StartLaws.{EnabledLieApart, SoundInPlaceIsSettled, SoundStandsInPlace};

/// In a sound start each part stands exactly where each lies in its list or its window, and what is off apart
/// from the rest, as it does where nothing is off. Then settling writes nothing.
pub fn sound_starts_in_place_are_settled()
    ensures enabled { EnabledLieApart }
    ensures stands { SoundStandsInPlace }
    ensures settled { SoundInPlaceIsSettled }
{}
