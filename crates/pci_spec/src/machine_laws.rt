//! Laws of configuration registers under writes (PCI 3.0, 6.2.2, 6.2.3 and 6.2.5). These functions do nothing: each contract is a law.

ghost use Rattle.pci_spec.specs.MachineLaws.{WriteKeepsOtherBits, WriteKeepsOtherBytes, WriteSetsWritableBits, OneClears, ZeroClearsNothing, WriteLeavesImage, NoBitIsBoth, WritableBitsAreOfRegisters, ClearingBitsAreOfStatus, CommandIsWritable, RomEnableIsWritable, BarKeepsEncoding, WindowKeepsNibbles, SizingFindsProbe};

/// In the bytes that it is made to a write sets the writable bits and clears those that its ones
/// clear. Nothing else changes.
pub fn writes_change_writable_bits()
    ensures other_bits { WriteKeepsOtherBits }
    ensures other_bytes { WriteKeepsOtherBytes }
    ensures writable { WriteSetsWritableBits }
    ensures one { OneClears }
    ensures zero { ZeroClearsNothing }
    ensures image { WriteLeavesImage }
{}

/// Which bits of a function are writable and which are cleared by a one: none is both.
pub fn bits_are_of_registers()
    ensures both { NoBitIsBoth }
    ensures writable { WritableBitsAreOfRegisters }
    ensures clearing { ClearingBitsAreOfStatus }
    ensures command { CommandIsWritable }
    ensures rom { RomEnableIsWritable }
{}

/// No write changes how a BAR or a window is encoded.
pub fn encodings_stay()
    ensures bar { BarKeepsEncoding }
    ensures window { WindowKeepsNibbles }
{}

/// Where a function's registers decode and its probe has no stray bytes, sizing it finds just that
/// probe.
pub fn sizing_finds_the_probe()
    ensures { SizingFindsProbe }
{}
