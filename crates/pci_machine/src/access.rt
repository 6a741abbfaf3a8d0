//! Which accesses a port takes (PCI 3.0, 6.1).
ghost use Rattle.std.specs.Prelude.{◌≡◌, IsTrue};
ghost use Rattle.pci_spec.specs.Port as port;

/// Whether 1, 2 or 4 bytes are accessed, from a multiple of their number on.
pub fn is_access(off: u8, width: u8) -> bool
    ensures { result ≡ port.is_access off width }
{
    match width {
        1 => true,
        2 => off % 2 == 0,
        4 => off % 4 == 0,
        _ => false,
    }
}

/// Whether a value fits 1, 2 or 4 bytes.
pub fn fits(width: u8, value: u32) -> bool
    // the widths are those of an access, so 256 to the power of the width is known
    requires { IsTrue (port.is_access 0 width) }
    ensures { result ≡ port.fits width value }
{
    match width {
        1 => value < 0x100,
        2 => value < 0x1_0000,
        _ => true,
    }
}
