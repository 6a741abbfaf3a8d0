//! Windows whose spares have no room, as C has them.
ghost use Rattle.std.specs.Prelude.{◌≡◌, ◌≤◌, length};
ghost use Rattle.pci_settle.specs.Denied.{denied_value};
ghost use Rattle.pciplan_c.specs.DeniedSpares.{AreDeniedPut, denied_value_of};

use pci_settle::settle::Denied;

/// A window of a bridge in which the spare that is wanted has no room, by the byte offset of its first register: 1ch of I/O,
/// 20h of memory, 24h of prefetchable memory.
#[repr(C)]
#[derive(Clone, Copy, Debug, PartialEq, Eq)]
pub struct DeniedSpare {
    pub bus: u8,
    pub device: u8,
    pub function: u8,
    pub offset: u8,
}

impl DeniedSpare {
    /// A window of a settling.
    fn of(denied: &Denied) -> DeniedSpare
        ensures { denied_value_of result ≡ denied_value denied.now }
    {
        DeniedSpare {
            bus: denied.slot.bus(),
            device: denied.slot.dev(),
            function: denied.slot.fun(),
            offset: denied.register,
        }
    }
}

/// Puts the windows of a settling at the front of an array, and answers how many they are.
pub fn put_denied(denied: &[Denied], array: &mut [DeniedSpare]) -> usize
    // so that writes aren't put without them
    requires { length denied.now ≤ length array.now }
    ensures { AreDeniedPut denied.now array.old array.new result }
{
    let count = denied.len();
    for i in 0..count {
        array[i] = DeniedSpare::of(&denied[i]);
    }
    count
}
