//! The parts of a text.
ghost use Rattle.std.specs.Prelude.{◌≡◌, ◌<◌, ◌∷◌, ◌==◌};
ghost use Rattle.std.specs.List.{slice_split};
ghost use Rattle.pci_here.specs.Parts.{parts_left};

/// What stands before the first separator, and what stands behind it where there is one.
pub(crate) fn first_part(text: &str, separator: char) -> (&str, Option<&str>)
    // an ASCII character is one byte
    requires { separator < 128 }
    ensures { slice_split (λ byte. byte == separator) text.now ≡ result.0.now ∷ parts_left separator result.1 }
{
    match text.split_once(separator) {
        Some((first, more)) => (first, Some(more)),
        None => (text, None),
    }
}
