//! Puts bytes of a text, or registers, into memory of the caller's.
ghost use Rattle.std.specs.Prelude.{◌≡◌, ◌<◌, length, IfOk, IfErr};
ghost use Rattle.pciplan_c.specs.Puts.{IsPutInto};

/// Why nothing is answered.
#[derive(Clone, Copy, Debug, PartialEq, Eq)]
pub enum Withheld {
    /// A growth was refused.
    Memory,
    /// The caller has no room: for so many bytes, or writes, it is needed.
    NoRoom(usize),
}

/// Puts items at the front of others, and answers how many.
///
/// # Errors
///
/// `NoRoom` where the others are fewer. They stay as they were.
pub fn put<T: Copy>(items: &[T], room: &mut [T]) -> Result<usize, Withheld>
    ensures put { IfOk result (λ _. IsPutInto room.old room.new items.now) }
    ensures length { IfOk result (λ used. used ≡ length items.now) }
    // a part must not be taken for all
    ensures quiet { IfErr result (λ _. room.new ≡ room.old) }
    // so that a caller can make room and call again
    ensures needed { IfErr result
        (λ why. (why ≡ Withheld.NoRoom (length items.now)) × (length room.old < length items.now)) }
{
    let count = items.len();
    if room.len() < count {
        return Err(Withheld::NoRoom(count));
    }
    room[..count].copy_from_slice(items);
    Ok(count)
}
