//! Laws of stops as a user's words take them. These functions do nothing: each contract is a law.

ghost use Rattle.settle_answer_laws.specs.WordStops.{MachinesShowStops, WordsCanStop, WordsTakeStops};

/// A machine shows after printed writes what they put into the dump, wherever the writes may stop.
pub fn machines_show_each_stop()
    ensures shown { MachinesShowStops }
{}

/// The printed writes lead through dumps that the words take as what settling leads to, wherever the writes may stop.
pub fn words_take_each_stop()
    ensures taken { WordsTakeStops }
{}

/// Where the words take the dump after all printed writes as sound, so they do wherever the writes may stop.
pub fn words_take_each_stop_as_sound()
    ensures sound { WordsCanStop }
{}
