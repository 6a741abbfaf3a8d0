//! Laws of the text of a dump and of its faults. These functions do nothing: each contract is a law.

ghost use Rattle.pci_spec.specs.TextLaws.{DumpHasText, DumpHasOneText, TextIsOfOneDump, DumpListsSlotsInOrder, BeginningsAreGood, TextIsGood, InputHasOneFault, InputIsTextOrHasFault, TextHasNoFault, BlockWithoutTitleHasLength, BlockHasMostLength, LongestBlockIsThere, BlockWithoutTitleIsPlain, DumpHasRoom, LargestDumpIsThere, FaultIsInItsLine};

/// A dump has one text, and no text is two dumps'. It has at most 4,096 blocks, in the order of their
/// slots. A block has 841 bytes without a title, written with small digits, and 1,042 at most.
pub fn dumps_have_one_text()
    ensures some { DumpHasText }
    ensures one { DumpHasOneText }
    ensures back { TextIsOfOneDump }
    ensures slots { DumpListsSlotsInOrder }
    ensures short { BlockWithoutTitleHasLength }
    ensures most { BlockHasMostLength }
    ensures longest { LongestBlockIsThere }
    ensures plain { BlockWithoutTitleIsPlain }
    ensures room { DumpHasRoom }
    ensures largest { LargestDumpIsThere }
{}

/// Each input is a text or has just one fault, a text has none, and each fault names a line of its
/// kind. A text is good, and so is what a good input begins with.
pub fn inputs_have_one_fault()
    ensures good { TextIsGood }
    ensures beginnings { BeginningsAreGood }
    ensures some { InputIsTextOrHasFault }
    ensures one { InputHasOneFault }
    ensures none { TextHasNoFault }
    ensures line { FaultIsInItsLine }
{}
