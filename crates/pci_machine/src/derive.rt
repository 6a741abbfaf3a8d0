//! A function's probe, derived from what it shows and what Linux tells of it.
ghost use Rattle.std.specs.Prelude.{◌≡◌, None, OnOk, IfOk, IfErr};
ghost use Rattle.pci_spec.specs.Header.{layout};
ghost use Rattle.pci_spec.specs.Derived.{derived_probe, assumed_registers, read_back_of, is_assumed};
ghost use Rattle.pci_spec.specs.NoProbe.{no_probe, register_fault};
ghost use Rattle.pci_image.specs.Header.{HasHeader};
ghost use Rattle.pci_image.specs.Layouts.{layout_number};
ghost use Rattle.pci_machine.specs.Assuming.{assuming_of};
ghost use Rattle.pci_machine.specs.Derived.{derived_of, IsNarrow};
ghost use Rattle.pci_machine.specs.DeriveFault.{IsDeriveFault, IsHeaderFault, IsOfRegister};

use super::assuming::Assuming;
use super::derive_fault::DeriveFault;
use super::derive_register::register;
use super::derived::Derived;
use super::resource_line::ResourceLine;
use arrayvec::ArrayVec;
use pci_base::image::{IMAGE_LEN, Image, put};
use pci_image::fault::ImageFault;
use pci_image::header::Header;
use pci_image::layout::Layout;
use pci_image::register::address_registers;

/// The layout of a function's header.
pub(crate) fn layout_of(image: &Image) -> Result<Layout, ImageFault>
    ensures header { OnOk result (HasHeader image.now.0) }
    ensures layout { IfOk result (λ known. layout image.now.0 ≡ layout_number known) }
    ensures fault { IfErr result (IsHeaderFault image.now.0) }
{
    match Header::of(image) {
        Ok(header) => Ok(header.layout()),
        Err(fault) => Err(fault),
    }
}

/// The read back of the register at an offset, and whether it is assumed.
fn taken(derived: Derived, assuming: Assuming, offset: u8) -> Result<(u32, bool), DeriveFault>
    requires narrow { IsNarrow derived }
    ensures told { OnOk result (register_fault (assuming_of assuming) offset (derived_of derived)
        ≡ None) }
    ensures read_back { IfOk result (λ taken. (taken.0 ≡ read_back_of (derived_of derived))
        × (taken.1 ≡ is_assumed (derived_of derived))) }
    ensures fault { IfErr result
        (λ fault. IsOfRegister fault
        (register_fault (assuming_of assuming) offset (derived_of derived))) }
{
    match derived {
        Derived::Known(read_back) => Ok((read_back as u32, false)),
        Derived::Assumed(read_back) if assuming.of_disabled() => Ok((read_back as u32, true)),
        Derived::Untold(read_back) if assuming.of_enabled() => Ok((read_back as u32, true)),
        Derived::Assumed(_) | Derived::Untold(_) => Err(DeriveFault::NoSize(offset)),
        Derived::OtherSize => Err(DeriveFault::OtherSize(offset)),
    }
}

/// The probe of the function that has an image, by what Linux tells of its registers: `lines` 0 to 5
/// are those of the BAR registers, line 6 is that of the ROM. It is written to `probe`; what comes
/// back are the registers whose read backs are assumed, by rising offset.
///
/// Where no size is told of a register, the read back of the least size is assumed as [`Assuming`]
/// says; a window that shows 0 while its space is enabled is assumed to be absent, unless nothing may
/// be assumed.
///
/// # Errors
///
/// 20 and 21 (`Header`) as [`Header::of`]. Then that of the lowest register without a read back: 32
/// `NoSize` where no size is told and none may be assumed, 33 `OtherSize` where it shows 0 and what is told has another encoding or size. Then
/// `probe` holds no probe.
pub fn derive(
    image: &Image,
    lines: &[ResourceLine; 7],
    assuming: Assuming,
    probe: &mut Image,
) -> Result<ArrayVec<u8, 9>, DeriveFault>
    // of another layout it isn't known where address registers are
    ensures header { OnOk result (HasHeader image.now.0) }
    ensures told { OnOk result (no_probe (assuming_of assuming) image.now.0 lines.now ≡ None) }
    ensures probe { OnOk result (probe.new.0 ≡ derived_probe image.now.0 lines.now) }
    // the command line has a remark on each of these
    ensures assumed { IfOk result
        (λ registers. registers.items ≡ assumed_registers image.now.0 lines.now) }
    ensures fault { IfErr result (IsDeriveFault assuming image.now.0 lines.now) }
{
    let layout = match layout_of(image) {
        Ok(layout) => layout,
        Err(fault) => return Err(DeriveFault::Header(fault)),
    };
    let mut assumed = ArrayVec::new();
    probe.0 = [0; IMAGE_LEN];
    for place in address_registers(layout) {
        let derived = register(image, lines, layout, *place);
        let (read_back, is_assumed) = taken(derived, assuming, place.offset)?;
        put(&mut probe.0, place.offset, place.width, read_back);
        if is_assumed {
            assumed.push(place.offset);
        }
    }
    Ok(assumed)
}
