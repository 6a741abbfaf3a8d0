//! The texts of the faults, by rising number. `tests/explain.py --write` makes this file of the pages in docs/.

pub const READ_IO: &str = "\
1 Io
  The text couldn't be opened or read.
  Mostly: A text can't be opened or read, or the output is closed or full.
  Do: The message says which.
";

pub const MEMORY: &str = "\
2 Memory
  Memory was wanting.
  Mostly: No memory: show, faults, map, size, plan, settle and probe hold both
    texts, check a record of each function.
  Do: More memory, or check first.
";

pub const BAD_SLOT: &str = "\
3 BadSlot n
  No slot, as 00:1f.3, stands where one belongs.
  Mostly, in line 1: The file isn't such a text at all. A domain stands before
    the slots (0000:), lines end with a carriage return, or the no of probe went
    into the file.
  Do, in line 1: Take machines/convert.sh, or cat the probe.
  Mostly, elsewhere: There are lines of lspci -v, or the text was edited; n is
    the line.
  Do, elsewhere: Take machines/convert.sh.
";

pub const BAD_TITLE: &str = "\
4 BadTitle n
  What stands behind a slot and a space isn't a title of 1 to 200 bytes.
  Mostly: There are lines of lspci -v, or the text was edited; n is the line.
  Do: Take machines/convert.sh.
";

pub const BAD_LINE: &str = "\
5 BadLine n
  A line of bytes, or of sizes, isn't in form. A dump that was read without
  root's rights has 64 bytes a function, and is refused in line 6.
  Mostly, in line 6: The text has 64 bytes a function.
  Do, in line 6: Read as root.
  Mostly, elsewhere: There are lines of lspci -v, or the text was edited; n is
    the line.
  Do, elsewhere: Take machines/convert.sh.
";

pub const NO_BLANK: &str = "\
6 NoBlank n
  A block doesn't end in an empty line.
  Mostly: There are lines of lspci -v, or the text was edited; n is the line.
  Do: Take machines/convert.sh.
";

pub const ORDER: &str = "\
7 Order n
  The slot isn't above the one before. In a text of --also it is below, or a
  range is backward.
  Mostly: There are lines of lspci -v, or the text was edited; n is the line.
  Do: Take machines/convert.sh.
";

pub const TOO_MANY: &str = "\
8 TooMany n
  There are more than 4,096 functions, or lines of --also.
  Mostly: There are lines of lspci -v, or the text was edited; n is the line.
  Do: Take machines/convert.sh.
";

pub const ENDED: &str = "\
9 Ended n
  The text ends within a block.
  Mostly: The text is cut off, or its last empty line is missing.
  Do: Capture it again.
";

pub const WRITE_IO: &str = "\
10 Io
  The output couldn't be written.
  Mostly: A text can't be opened or read, or the output is closed or full.
  Do: The message says which.
";

pub const NO_VENDOR: &str = "\
20 NoVendor S
  The Vendor ID reads FFFFh.
  Mostly: The function is a virtual function (SR-IOV), or it doesn't answer.
  Do: Leave virtual functions out, as machines/capture.sh does.
";

pub const HEADER_KIND: &str = "\
21 HeaderKind S
  The header's layout is neither 0 nor 1.
  Mostly: The function is a CardBus bridge (header type 2). It isn't decoded,
    nor is what is behind it.
  Do: faults --model cardbus judges the rest. So does check without the
    function's two blocks.
";

pub const BAR_TYPE: &str = "\
22 BarType S r
  The type of a memory BAR is reserved.
  Mostly: Bits 2:1 of a memory BAR are 01 (below 1 MB, in older standards) or
    11. Such a BAR isn't decoded.
  Do: Without the function's two blocks a verdict is of the rest alone.
";

pub const BAR_MASK: &str = "\
23 BarMask S r
  A BAR's read back is of no BAR, or its value doesn't go with it.
  Mostly: No BAR or window has such a read back: not all ones were written, or a
    window takes nothing.
  Do: Size it again with decoding off. Of a derived probe, look at the device's
    errata. Of a window that can't be written faults --model windows judges what
    it shows.
";

pub const BAR_PAIR: &str = "\
24 BarPair S r
  A 64-bit BAR has no register for its upper half.
  Mostly: The last BAR register says that it is of 64 bits.
  Do: Take both texts again. If the fault stays, do as for 22.
";

pub const ROM_MASK: &str = "\
25 RomMask S r
  The same as 23, of the expansion ROM.
  Mostly: Bits 10:0 of the ROM's read back have ones, as where FFFFFFFFh was
    written. Or bits 10:1 of the register have ones.
  Do: Size it with FFFFF800h, as c/capture does.
";

pub const WINDOW_MASK: &str = "\
26 WindowMask S r
  The same as 23, of a bridge's window.
  Mostly: No BAR or window has such a read back: not all ones were written, or a
    window takes nothing.
  Do: Size it again with decoding off. Of a derived probe, look at the device's
    errata. Of a window that can't be written faults --model windows judges what
    it shows.
";

pub const CAP_RANGE: &str = "\
27 CapRange S r
  The capabilities list leads below 40h.
  Mostly: The capabilities list has a wrong pointer or length, or a byte of the
    dump is wrong.
  Do: Capture it again. If the fault stays, do as for 22.
";

pub const CAP_LOOP: &str = "\
28 CapLoop S r
  The capabilities list comes to a place twice.
  Mostly: The capabilities list has a wrong pointer or length, or a byte of the
    dump is wrong.
  Do: Capture it again. If the fault stays, do as for 22.
";

pub const CAP_CUT: &str = "\
29 CapCut S r
  A capability passes the end of the 256 bytes.
  Mostly: The capabilities list has a wrong pointer or length, or a byte of the
    dump is wrong.
  Do: Capture it again. If the fault stays, do as for 22.
";

pub const SLOTS_DIFFER: &str = "\
30 SlotsDiffer S
  One of the two texts alone lists the slot.
  Mostly: The two texts were taken at different times, or of different machines.
  Do: Take both at once.
";

pub const STRAY_PROBE: &str = "\
31 StrayProbe S r
  The probe has a byte outside the address registers.
  Mostly: The two files are swapped, or the dump is given twice.
  Do: The order is check DUMP PROBE.
";

pub const NO_SIZE: &str = "\
32 NoSize S r
  A BAR that shows something, or an enabled ROM, has no size told; with --exact
  any register whose read back would be assumed; with --least none.
  Mostly: Linux couldn't give the BAR an address, and cleared what it tells of
    it. The BAR may be on or off.
  Do: The kernel's log may have the size: machines/capture.sh reads it. probe
    --least is for judging: a no of check stands, a yes doesn't
    (docs/BUG_REPORT.md). Else take a probe by sizing, before an operating
    system runs (docs/C.md).
";

pub const OTHER_SIZE: &str = "\
33 OtherSize S r
  The register shows 0, and what is told isn't of it.
  Mostly: The register shows 0, and what Linux tells is of another kind: I/O, 64
    bits or prefetchable.
  Do: Capture both texts at once. Else take a probe by sizing.
";

pub const NOT_LISTED: &str = "\
34 NotListed S
  A command or always line of --also names a function that the dump doesn't
  list.
  Mostly: The text of --also tells of a function that the dump doesn't list: it
    is of another time or another machine, or the function is hidden.
  Do: Capture all three texts at once. Where the function is hidden, mark its
    lines held.
";

pub const LONE_FUNCTION: &str = "\
50 LoneFunction S
  The device's function 0 isn't listed.
  Mostly: Firmware hides function 0 of a device.
  Do: List it, if it answers.
";

pub const PALETTE_SNOOP: &str = "\
51 PaletteSnoop S
  Command bit 5 is set. This and the faults 52 to 56 refuse functions that
  answer otherwise than their address registers show.
  With palette snooping a display takes writes to palette ports beside the
  device that answers them. No BAR shows these addresses (PCI 3.0, 6.2.2).
  Mostly: Command bit 5 is set, for an old display.
  Do: faults --model snoop judges what the bit changes. To take the bit away,
    clear it, if no display needs it.
";

pub const VGA_ENABLE: &str = "\
52 VgaEnable S
  Bridge Control bit 3 is set.
  The bridge forwards the addresses of a legacy display: A0000h to BFFFFh, and
  ports from 3B0h on. It does so whatever its windows say (Bridge 1.2, 3.2.5).
  Mostly: Bridge Control bit 3 is set: firmware sets it above the first display.
  Do: faults --model vga judges what bridges forward to a display, and not what
    the display itself answers. It may then name ports that come again in each
    KB, as 13b0. Where the bridge does decode 16 bits, take --model vga16.
";

pub const ISA_ENABLE: &str = "\
53 IsaEnable S
  Bridge Control bit 2 is set.
  Of the ports in its I/O window the bridge forwards the first 256 of each 1,024
  alone (Bridge 1.2, 3.2.5).
  Mostly: Bridge Control bit 2 is set: older firmware sets it.
  Do: faults --model isa judges what the bridge then forwards. To take the bit
    away, clear it, if nothing behind the bridge needs it.
";

pub const SUBTRACTIVE: &str = "\
54 Subtractive S
  It is a bridge of class 060401h.
  The bridge forwards what nobody else on its bus claims. Its registers don't
  say which addresses those are.
  Mostly: The bridge takes what nobody else claims.
  Do: Where nothing is listed behind it, take faults --model subtractive. Else
    faults --model unclaimed judges what the bridge takes, where it is alone of
    its class on its bus. Tell what the board itself answers there with --also.
";

pub const IN_RESET: &str = "\
55 InReset S
  Bridge Control bit 6 is set.
  Nothing behind a bridge answers while its secondary bus is held in reset.
  Mostly: Bridge Control bit 6 is set: the bus behind is held in reset.
  Do: Where nothing is listed behind it, take faults --model reset. Else end the
    reset first.
";

pub const POWER_STATE: &str = "\
56 PowerState S
  A power management capability shows another state than D0.
  Outside D0 a function answers accesses to its configuration space alone,
  whatever Command enables (Power Management 1.2, chapter 5).
  Mostly: The function sleeps, as an operating system lets idle ones.
  Do: faults --model power judges the rest. Or, on Linux, echo on to its
    power/control, then capture.
";

pub const BUS_RANGE: &str = "\
57 BusRange S
  A bridge's bus numbers don't fit.
  Mostly: Bus numbers were never given, or overlap.
  Do: Number the buses first: only then can anything behind a bridge be read
    (docs/BARE_BOARD.md). Of a bridge that shows 0, 0, 0 and is to stay so
    faults --model unnumbered judges the rest.
";

pub const ORPHAN: &str = "\
58 Orphan S
  No bridge leads to the function's bus, and it is no root: on a machine with
  several host buses --root lists them all.
  Mostly: The bus belongs to another host bridge, or no bridge leads to it.
  Do: Name all root buses in --root.
";

pub const UNREACHED: &str = "\
60 Unreached S r SPACE ADDR bridge S
  An enabled BAR or ROM has this address, and the bridge on the way to it
  doesn't pass it.
  Mostly: A window of the bridge that is named is closed, too small, or switched
    off.
  Do: faults --why prints the bridge's windows, what of the region they miss,
    and where it would fit.
  Mostly, of settle --model: The fault is left in the settled dump, judged as
    faults --model with the same words does: settle finds no place by its rules
    that mends it.
  Do, of settle --model: Other lists, or --anew; or clear VGA Enable, ISA Enable
    or palette snooping where nothing needs it, and settle the new dump.
";

pub const CLASH: &str = "\
61 Clash bus bb SPACE ADDR S r S r
  Two enabled regions of the bus answer the address, and an access to it gets
  there.
  Mostly: Two regions answer one address: of one bus, or of two root buses.
  Do: Move or switch off one of the two that are named; faults --why tells where
    the second one would fit.
  Mostly, of settle --model: The fault is left in the settled dump, judged as
    faults --model with the same words does: settle finds no place by its rules
    that mends it.
  Do, of settle --model: Other lists, or --anew; or clear VGA Enable, ISA Enable
    or palette snooping where nothing needs it, and settle the new dump.
";

pub const SPLIT: &str = "\
62 Split SPACE ADDR S r S r
  Regions on two root buses answer the address.
  Mostly: Two regions answer one address: of one bus, or of two root buses.
  Do: Move or switch off one of the two that are named; faults --why tells where
    the second one would fit.
  Mostly, of settle --model: The fault is left in the settled dump, judged as
    faults --model with the same words does: settle finds no place by its rules
    that mends it.
  Do, of settle --model: Other lists, or --anew; or clear VGA Enable, ISA Enable
    or palette snooping where nothing needs it, and settle the new dump.
";

pub const OUTSIDE: &str = "\
63 Outside S r SPACE ADDR
  faults, with a list of what the host sends: An enabled BAR or ROM has this
  address, and it isn't sent to the root bus above.
  Mostly: The host bridge doesn't send this address there, or the lists are
    another machine's.
  Do: Move it into a range of its root, or look at /proc/iomem again.
";

pub const BAD_POOLS: &str = "\
70 BadPools
  A pool or a range is backward, or memory ends above FFFFFFFFh; of plan I/O
  ends above FFFFh, or a memory address is in two pools; of settle I/O ends
  above FFFFFFFFh, a range is of a bus that is no root, or two ranges of one
  list share an address.
  Mostly, of plan: Memory and prefetchable memory share addresses, or I/O ends
    above FFFFh.
  Do, of plan: Split one aperture in two: --mem 80000000-bfffffff --pref
    c0000000-febfffff; give a list of I/O above FFFFh to settle.
";

pub const NO_WINDOW: &str = "\
71 NoWindow S
  An I/O BAR of the function is behind a bridge without an I/O window.
  Mostly: An I/O BAR behind a bridge without an I/O window.
  Do: It can't be planned for; leave its I/O off.
";

pub const NO_ROOM: &str = "\
72 NoRoom io
  What is of the class (or mem, or pref) doesn't fit its pool; of settle the
  part at the slot and register that follow, of so many addresses and so
  aligned, has no place on its root.
  Mostly: The pool is too small: windows are powers of two.
  Do: plan --why tells by how much; a larger pool; --pref above 4 GB takes
    64-bit prefetchable BARs out of --mem; settle, whose windows are as large as
    what is in them.
  Mostly, of settle: What was placed before leaves no room for the part: each
    item has its first place, the most aligned first. Another order, by hand,
    may fit.
  Do, of settle: A larger list; --anew, which also moves what stands, but for
    what leads to a told range.
";

pub const NOT_ACCEPTED: &str = "\
73 NotAccepted
  A plan isn't sound, by the fault that follows; it never comes.
  Mostly: A mistake of pciplan: it doesn't come, as each plan is proved sound.
  Do: Report it, with both texts and the words of the command.
";

pub const FIXED: &str = "\
74 Fixed S r
  settle, with a list of fixed slots or with words of --model: This part of the
  function can't be left where it is, or the function would be written, at this
  offset first.
  Mostly: The part stands outside the lists, shares addresses with another fixed
    one, or a window lacks room and can't grow; at offset 04 a bridge above it,
    or the function, has to be switched.
  Do: Give the lists the range that it stands in, or leave the slot out of
    --fixed; of a function that --model leaves as it is, wake it or leave out
    the word.
";

pub const TOLD: &str = "\
75 Told S +n
  settle, with a text of what no BAR shows: Line n, a command or always range of
  the function, isn't reached as the board stands, or clashes with another line;
  or settling would cut it off, or switch it on though that is so.
  Mostly, of a range that faults --also names: The text is of another time, as
    virtual functions were switched off since; or firmware left the range
    unreached; or two lines tell of one address.
  Do, of a range that faults --also names: Capture the text again; faults --also
    --why names the bridge or both lines.
  Mostly, of another range: The window over the range stands outside the lists,
    or has no room for what is behind it; or a bridge above an always range
    would be shut; or a function would be switched on whose range clashes.
  Do, of another range: Lists with the ranges in which these windows stand, and
    with room beside them; --anew where such a window has no room for the rest;
    or switch the virtual functions off (sriov_numvfs 0), settle, and switch
    them on again.
";

pub const ASSUMED: &str = "\
76 Assumed S r
  settle: A title of the probe names this BAR, or this ROM whose bit 0 is set,
  as assumed.
  Mostly: The probe is one of --least, or a ROM without a told size has its bit
    0 set.
  Do: A probe in which the register is sized (docs/C.md); of a ROM that isn't
    used clear bit 0.
";

pub const TOO_MANY_RANGES: &str = "\
77 TooManyRanges
  settle, with words of --model: There are more than 4,096 ranges of --also and
  of bridges' legacy parts and palette parts. A legacy part whose bridge decodes
  ten bits of a port has 129, and such a palette part 128.
  Mostly: Many bridges with VGA Enable that decode ten bits of a port, or a long
    text of --also.
  Do: The word vga16 where the bridges decode 16 bits, fewer lines, or settle
    without --model.
";

pub const CHANGED: &str = "\
80 Changed bb:dd.f oo
  The register at offset oo isn't as the plan starts from. Nothing was written.
  Do: Take a new dump, and a new probe if it may be another machine, and plan
    anew.
  docs/APPLYING.md says more.
";

pub const PORT: &str = "\
81 Port 0
  An access failed, or a function of the plan isn't there. Nothing was written.
  Do: Find out which. If all functions are there, the same plan may be applied
    again.
81 Port n
  An access failed, or a function of the plan isn't there, after n writes.
  Do: See \"After a stop in the middle\".
  docs/APPLYING.md says more.
";

pub const STUCK: &str = "\
82 Stuck n
  The n-th write was made and reads back otherwise. No more were made.
  Do: Look at the probe, or the function. Then take a new dump and probe, and
    plan anew.
  docs/APPLYING.md says more.
";
