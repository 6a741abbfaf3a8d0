//! The forms of a script.
ghost use Rattle.std.specs.Prelude.{◌≡◌};
ghost use Rattle.pci_script.specs.Scripts.{script_end, head_of};

use crate::texts::{GRUB_END, GRUB_HEAD, SETPCI_END, SETPCI_HEAD};

/// Whose script it is.
#[derive(Clone, Copy, Debug, PartialEq, Eq)]
pub enum Form {
    /// A POSIX shell's, over `setpci` of pciutils.
    Setpci,
    /// GRUB's, over its command `setpci`.
    Grub,
}

impl Form {
    /// What stands before the lines: it says what `compare` and `put` do.
    pub fn head(self) -> &'static str
        ensures { result.now ≡ head_of self }
    {
        match self {
            Form::Setpci => SETPCI_HEAD,
            Form::Grub => GRUB_HEAD,
        }
    }

    /// What stands after them: it is reached where all writes were made.
    pub fn end(self) -> &'static str
        ensures { result.now ≡ script_end self }
    {
        match self {
            Form::Setpci => SETPCI_END,
            Form::Grub => GRUB_END,
        }
    }
}
