//! The parts of words that are joined by commas.
ghost use Rattle.std.specs.Prelude.{◌≡◌, ◌≢◌, ◌++◌, ◌<◌, slice_index, EachIndex};
ghost use Rattle.pciplan_lists.specs.Joined.{rest_with_comma};

/// What stands before the first comma, and what stands behind it where there is one.
pub fn first_of(list: &str) -> (&str, Option<&str>)
    ensures parts { list.now ≡ result.0.now ++ rest_with_comma result.1 }
    ensures first { EachIndex result.0.now (λ i. slice_index result.0.now i ≢ 44) }
{
    match list.split_once(',') {
        Some((first, more)) => (first, Some(more)),
        None => (list, None),
    }
}
