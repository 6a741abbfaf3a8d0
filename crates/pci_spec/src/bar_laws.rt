//! Laws of Base Address registers and the expansion ROM (PCI 3.0, 6.2.5). These functions do nothing: each contract is a law.

ghost use Rattle.pci_spec.specs.BarLaws.{OddRegisterIsIo, LowBitsAreOfMemory, OtherTypesAreReserved, MemoryAloneIsPrefetchable, BarHasOneSize, RomHasOneSize, MemoryReadBackShowsSize, WideReadBackShowsSize, IoReadBackShowsSize, RomReadBackShowsSize, BarAnswersItsSize, RomAnswersItsSize, BarStaysInSpace, RomStaysInSpace, FirstRegisterStartsBar, UpperHalfStartsNoBar, OtherRegistersStartBars, ReservedTypeHasNoSize};

/// The low bits of a register say of which kind it is (PCI 3.0, 6.2.5.1).
pub fn low_bits_show_kinds()
    ensures io { OddRegisterIsIo }
    ensures memory { LowBitsAreOfMemory }
    ensures reserved { OtherTypesAreReserved }
    ensures prefetchable { MemoryAloneIsPrefetchable }
{}

/// A read back is that of one size, and together with that size it makes up the power of two that
/// ends its register.
pub fn read_backs_show_sizes()
    ensures bar { BarHasOneSize }
    ensures rom { RomHasOneSize }
    ensures memory_read_back { MemoryReadBackShowsSize }
    ensures wide_read_back { WideReadBackShowsSize }
    ensures io_read_back { IoReadBackShowsSize }
    ensures rom_read_back { RomReadBackShowsSize }
    ensures reserved { ReservedTypeHasNoSize }
{}

/// A BAR or ROM of 2^k addresses answers just the 2^k addresses from its value without the low k
/// bits, and none that its registers cannot show.
pub fn bars_answer_their_sizes()
    ensures bar { BarAnswersItsSize }
    ensures rom { RomAnswersItsSize }
    ensures bar_space { BarStaysInSpace }
    ensures rom_space { RomStaysInSpace }
{}

/// Each register starts a BAR but the upper half of a 64-bit one.
pub fn registers_start_bars()
    ensures first { FirstRegisterStartsBar }
    ensures upper { UpperHalfStartsNoBar }
    ensures other { OtherRegistersStartBars }
{}
