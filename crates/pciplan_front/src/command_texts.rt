//! The texts of the commands. `tests/explain.py --write` makes this file of the manual page.

pub const HERE: &str = "\
pciplan here [faults | map | dump | probe | words] [--domain D] [--from FOLDER]
    [--log FILE]
  Reads the Linux machine that it runs on and judges it; root has to run it.
  faults prints what the command faults prints of its texts, with --why and the
  words that words prints; this is what is printed if no word is said. map
  prints what the command map prints with these words. dump and probe print the
  two texts, and words the line of options, so that the other commands can judge
  the texts elsewhere. The probe is derived as by probe --least: a fault holds
  whatever sizes are assumed, and a yes holds for these sizes alone. Virtual
  functions (SR-IOV) are left out. The first 256 bytes of each function are
  read, and nothing is written.
  --domain D
    here judges the functions of this PCI domain alone: 4 to 8 lower-case hex
    digits. If it isn't said, all domains are judged, by rising number. Where
    there are several, a line domain and the number stands before what is said
    of each. The status is the greatest one.
  --from FOLDER
    here reads the folders sys and proc of this folder, as a copy of another
    machine has them. / if it isn't said.
  --log FILE
    here takes the sizes of BARs that Linux couldn't place from this file, which
    has the kernel's log: their lines in resource are zeros. /dev/stdin reads
    what dmesg prints.
";

pub const SHOW: &str = "\
pciplan show DUMP PROBE
  Prints what each function decodes to: its header, BARs, ROM, bus numbers,
  windows and capabilities. Faults: 20 to 31.
";

pub const CHECK: &str = "\
pciplan check DUMP PROBE [--root LIST]
  Prints yes, or the first of the faults 20 to 31 and 50 to 62.
  --root LIST
    The buses on which the host's accesses start: two lower-case hex digits
    each, rising, with commas between them. 00 if it isn't said. On Linux they
    are in the names of /sys/devices/pci0000:*: 00,40 for pci0000:00 and
    pci0000:40.
";

pub const FAULTS: &str = "\
pciplan faults DUMP PROBE [--root LIST] [--model WORDS] [--host-io LIST]
    [--host-mem LIST] [--also FILE] [--why]
  Prints yes, or a line for each fault of the earliest phase that has any,
  without the no, in the order in which check looks; the first line is the fault
  that check names. LIST OF FAULTS says which lines there are.
  --root LIST
    The buses on which the host's accesses start: two lower-case hex digits
    each, rising, with commas between them. 00 if it isn't said. On Linux they
    are in the names of /sys/devices/pci0000:*: 00,40 for pci0000:00 and
    pci0000:40.
  --model WORDS
    faults, map and settle take functions otherwise than their registers say:
    one or more of cardbus, ide, isa, power, reset, snoop, subtractive,
    unclaimed, unnumbered, windows and one of vga and vga16, in any order, with
    commas between them, none twice; or all, which is all but vga16, so a bridge
    decodes ten bits of a port unless its bit VGA 16-bit Decode is set. cardbus
    takes a CardBus bridge (header layout 2) as a device that decodes no
    address; ide leaves out the BARs of IDE channels in compatibility mode; isa
    takes the I/O window of a bridge with ISA Enable to claim, below 64 KB, the
    first 256 ports of each KB alone; power takes a function that isn't in D0 as
    one that decodes nothing; reset and subtractive take away the faults 55 and
    54 of a bridge behind which no function is listed; snoop takes a bridge with
    VGA Palette Snoop to claim the ports of a palette and to forward writes to
    them, and a device with it to answer no more for it; unclaimed takes a
    bridge of class 060401h that is alone of this class on its bus to pass each
    address that no BAR, ROM, window, legacy part, palette part or told range of
    its bus claims; unnumbered takes a bridge whose bus numbers are 0 and whose
    windows claim nothing as one that leads nowhere; vga judges what bridges
    with VGA Enable forward to a display, and not what the display itself
    answers: the legacy addresses, which come again in each KB of I/O space
    where the bridge decodes ten bits alone; vga16 takes each of them to decode
    16 bits; windows takes a bridge's window whose read back is of none (26) as
    the one that its registers show. settle settles what the words take, and
    writes the registers of the functions as they are. It leaves functions that
    sleep, or are behind a bridge that sleeps, as they are, and bridges that
    reset, unnumbered or windows takes otherwise. Nothing is placed on what vga,
    vga16 and snoop take bridges to claim. What is settled is sound by faults
    with the same words; where that can't be had, the line is the fault that is
    left.
  --host-io LIST
  --host-mem LIST
    faults judges beside what the host sends to its root buses, and map shows
    what of that is free there and what isn't within it: none, or ranges with
    commas between them, each A-B for all root buses or bb:A-B for the root bus
    bb alone, from address A to address B, each of 1 to 16 lower-case hex
    digits. Of a space without a list all is sent to each.
  --also FILE
    faults judges, and map and picture show, what functions answer that no BAR
    shows: of virtual functions, of Enhanced Allocation, or of a chipset. settle
    places nothing there, and keeps the windows over it, or lets them grow. A
    line of the file is S SPACE A-B MARK, and a name where one is wanted. SPACE
    is io, mem or pref. MARK is command (while Command of the function enables
    the space), always, or held (somebody there answers it). A range is named by
    its slot and line, as in 01:00.0 +1.
  --why
    faults tells with what ranges each fault 60 to 63 is there, and which BARs
    are off. Behind a fault 72 plan prints a second line: how many addresses the
    class needs, from which address on, and how many its pool has from there.
";

pub const MAP: &str = "\
pciplan map DUMP PROBE [--root LIST] [--model WORDS] [--host-io LIST]
    [--host-mem LIST] [--also FILE]
  Prints which enabled BAR, ROM or window sits where, what is inside each
  window, and what of it is free; ADDRESS MAP says which lines there are.
  Faults: 20 to 31 and 50 to 58; what would be 60 to 62 is shown as it is.
  --root LIST
    The buses on which the host's accesses start: two lower-case hex digits
    each, rising, with commas between them. 00 if it isn't said. On Linux they
    are in the names of /sys/devices/pci0000:*: 00,40 for pci0000:00 and
    pci0000:40.
  --model WORDS
    faults, map and settle take functions otherwise than their registers say:
    one or more of cardbus, ide, isa, power, reset, snoop, subtractive,
    unclaimed, unnumbered, windows and one of vga and vga16, in any order, with
    commas between them, none twice; or all, which is all but vga16, so a bridge
    decodes ten bits of a port unless its bit VGA 16-bit Decode is set. cardbus
    takes a CardBus bridge (header layout 2) as a device that decodes no
    address; ide leaves out the BARs of IDE channels in compatibility mode; isa
    takes the I/O window of a bridge with ISA Enable to claim, below 64 KB, the
    first 256 ports of each KB alone; power takes a function that isn't in D0 as
    one that decodes nothing; reset and subtractive take away the faults 55 and
    54 of a bridge behind which no function is listed; snoop takes a bridge with
    VGA Palette Snoop to claim the ports of a palette and to forward writes to
    them, and a device with it to answer no more for it; unclaimed takes a
    bridge of class 060401h that is alone of this class on its bus to pass each
    address that no BAR, ROM, window, legacy part, palette part or told range of
    its bus claims; unnumbered takes a bridge whose bus numbers are 0 and whose
    windows claim nothing as one that leads nowhere; vga judges what bridges
    with VGA Enable forward to a display, and not what the display itself
    answers: the legacy addresses, which come again in each KB of I/O space
    where the bridge decodes ten bits alone; vga16 takes each of them to decode
    16 bits; windows takes a bridge's window whose read back is of none (26) as
    the one that its registers show. settle settles what the words take, and
    writes the registers of the functions as they are. It leaves functions that
    sleep, or are behind a bridge that sleeps, as they are, and bridges that
    reset, unnumbered or windows takes otherwise. Nothing is placed on what vga,
    vga16 and snoop take bridges to claim. What is settled is sound by faults
    with the same words; where that can't be had, the line is the fault that is
    left.
  --host-io LIST
  --host-mem LIST
    faults judges beside what the host sends to its root buses, and map shows
    what of that is free there and what isn't within it: none, or ranges with
    commas between them, each A-B for all root buses or bb:A-B for the root bus
    bb alone, from address A to address B, each of 1 to 16 lower-case hex
    digits. Of a space without a list all is sent to each.
  --also FILE
    faults judges, and map and picture show, what functions answer that no BAR
    shows: of virtual functions, of Enhanced Allocation, or of a chipset. settle
    places nothing there, and keeps the windows over it, or lets them grow. A
    line of the file is S SPACE A-B MARK, and a name where one is wanted. SPACE
    is io, mem or pref. MARK is command (while Command of the function enables
    the space), always, or held (somebody there answers it). A range is named by
    its slot and line, as in 01:00.0 +1.
";

pub const SIZE: &str = "\
pciplan size DUMP PROBE
  Prints the probe that firmware sizing register by register would read, on a
  machine of the two texts. Faults: 20 to 26, 30 and 31.
";

pub const PLAN: &str = "\
pciplan plan DUMP PROBE --io A-B --mem A-B --pref A-B [--root LIST] [--writes]
    [--why]
  Places all that has an address in three pools, and prints the planned dump, or
  the register writes that lead there. For each register that the titles of the
  probe name as assumed, standard error has a line pciplan: assumed, slot and
  register. Faults: 20 to 31, 50 to 58 and 70 to 72.
  --root LIST
    The buses on which the host's accesses start: two lower-case hex digits
    each, rising, with commas between them. 00 if it isn't said. On Linux they
    are in the names of /sys/devices/pci0000:*: 00,40 for pci0000:00 and
    pci0000:40.
  --io A-B
  --mem A-B
  --pref A-B
    The pools of plan for I/O, memory and prefetchable memory: from address A to
    address B, each of 1 to 16 lower-case hex digits. All three have to be said.
    Of settle they are lists: none, or ranges with commas between them, each A-B
    for all root buses or bb:A-B for the root bus bb alone. What stands first in
    a list is taken first.
  --writes
    plan and settle print a line for each register write in place of the planned
    dump: slot, offset and width, and the value. Made in their order they may
    stop anywhere.
  --why
    faults tells with what ranges each fault 60 to 63 is there, and which BARs
    are off. Behind a fault 72 plan prints a second line: how many addresses the
    class needs, from which address on, and how many its pool has from there.
";

pub const SETTLE: &str = "\
pciplan settle DUMP PROBE --io LIST --mem LIST --pref LIST [--root LIST]
    [--model WORDS] [--fixed SLOTS] [--anew] [--also FILE] [--spare WORDS
    [--slots SLOTS]] [--writes[=FORM]]
  Leaves what works where it is, and places the rest in three lists of ranges,
  each of all root buses or of one, with windows that are as large as what is in
  them; prints the settled dump, the register writes that lead there, or a
  script that makes them. A part stays where it lies in a range of its root, or
  in a window that stays itself, and shares no address with another part that
  stays. A window in which what has to be placed behind it has no room grows
  where it stands, if addresses beside it are free, and else goes. By the writes
  a function is off meanwhile only in the space in which a BAR or ROM of it
  moves; a bridge stays on, a window that moves is closed, and one that grows is
  open. A BAR, or a ROM whose bit 0 is set, that the titles of the probe name as
  assumed is refused: it may decode more addresses than the probe tells. Faults:
  20 to 31, 50 to 58, 70, 72, 74 and 76, with --also 34 and 75, and with --model
  60 to 62 and 77.
  --root LIST
    The buses on which the host's accesses start: two lower-case hex digits
    each, rising, with commas between them. 00 if it isn't said. On Linux they
    are in the names of /sys/devices/pci0000:*: 00,40 for pci0000:00 and
    pci0000:40.
  --model WORDS
    faults, map and settle take functions otherwise than their registers say:
    one or more of cardbus, ide, isa, power, reset, snoop, subtractive,
    unclaimed, unnumbered, windows and one of vga and vga16, in any order, with
    commas between them, none twice; or all, which is all but vga16, so a bridge
    decodes ten bits of a port unless its bit VGA 16-bit Decode is set. cardbus
    takes a CardBus bridge (header layout 2) as a device that decodes no
    address; ide leaves out the BARs of IDE channels in compatibility mode; isa
    takes the I/O window of a bridge with ISA Enable to claim, below 64 KB, the
    first 256 ports of each KB alone; power takes a function that isn't in D0 as
    one that decodes nothing; reset and subtractive take away the faults 55 and
    54 of a bridge behind which no function is listed; snoop takes a bridge with
    VGA Palette Snoop to claim the ports of a palette and to forward writes to
    them, and a device with it to answer no more for it; unclaimed takes a
    bridge of class 060401h that is alone of this class on its bus to pass each
    address that no BAR, ROM, window, legacy part, palette part or told range of
    its bus claims; unnumbered takes a bridge whose bus numbers are 0 and whose
    windows claim nothing as one that leads nowhere; vga judges what bridges
    with VGA Enable forward to a display, and not what the display itself
    answers: the legacy addresses, which come again in each KB of I/O space
    where the bridge decodes ten bits alone; vga16 takes each of them to decode
    16 bits; windows takes a bridge's window whose read back is of none (26) as
    the one that its registers show. settle settles what the words take, and
    writes the registers of the functions as they are. It leaves functions that
    sleep, or are behind a bridge that sleeps, as they are, and bridges that
    reset, unnumbered or windows takes otherwise. Nothing is placed on what vga,
    vga16 and snoop take bridges to claim. What is settled is sound by faults
    with the same words; where that can't be had, the line is the fault that is
    left.
  --also FILE
    faults judges, and map and picture show, what functions answer that no BAR
    shows: of virtual functions, of Enhanced Allocation, or of a chipset. settle
    places nothing there, and keeps the windows over it, or lets them grow. A
    line of the file is S SPACE A-B MARK, and a name where one is wanted. SPACE
    is io, mem or pref. MARK is command (while Command of the function enables
    the space), always, or held (somebody there answers it). A range is named by
    its slot and line, as in 01:00.0 +1.
  --io A-B
  --mem A-B
  --pref A-B
    The pools of plan for I/O, memory and prefetchable memory: from address A to
    address B, each of 1 to 16 lower-case hex digits. All three have to be said.
    Of settle they are lists: none, or ranges with commas between them, each A-B
    for all root buses or bb:A-B for the root bus bb alone. What stands first in
    a list is taken first.
  --fixed SLOTS
    settle writes no register of the functions at these slots, which are joined
    by commas, each above the one before: 00:02.0,01:00.0. So the windows of a
    bridge that is named don't grow. A slot that the dump doesn't have says
    nothing.
  --anew
    settle leaves nothing where it stands but what --also tells, and what leads
    to it: a window over such a range, or a BAR of a bridge above one that is
    marked always.
  --spare WORDS
    settle keeps so many addresses free behind each bridge with a hot-plug slot,
    for a card that comes later: io:1000,mem:200000,pref:200000. Of the three
    classes one has to be said, each with a number of 1 to 16 lower-case hex
    digits that isn't 0. A number above fffffffffff00000 counts as that one.
    Nothing moves or goes off for it, and nothing more is refused. A window
    without room for its spare is left as it is. For each of them standard error
    has a line pciplan: spare, the slot of the bridge, and 1c, 20 or 24 for the
    window.
  --slots SLOTS
    The bridges with a hot-plug slot, in a list as that of --fixed, in place of
    those whose capabilities say so. It goes with --spare alone.
  --writes
    plan and settle print a line for each register write in place of the planned
    dump: slot, offset and width, and the value. Made in their order they may
    stop anywhere.
  --writes=FORM
    settle prints the same writes as a script. FORM is setpci, for a shell over
    setpci of pciutils, or grub, for GRUB. The script compares Command and the
    address registers of each function that it writes with the dump first, and
    writes nothing where one differs. It reads each write back, and stops where
    that differs.
";

pub const PROBE: &str = "\
pciplan probe DUMP SIZES [--exact | --least]
  Prints the probe that is derived of the dump and the sizes that Linux found.
  It assumes that a ROM that is off and has no size told has 2 KB, and that a
  window that shows 0 while its space is enabled is absent. The title of a block
  names the registers that are assumed in it. For each of them standard error
  has a line pciplan: assumed, slot and register. Faults: 20, 21, 30, 32 and 33.
  --exact
    probe assumes nothing: a register whose read back would be assumed is the
    fault 32.
  --least
    probe takes a BAR, or an enabled ROM, of which no size is told to have the
    least size: 16 addresses, 4 of I/O, 2 KB of a ROM. Each has its remark, and
    is named in a title. Such a probe is for judging: settle refuses a BAR that
    is so assumed. A fault that check finds in such a probe is there whatever
    the sizes are; its yes holds for these sizes alone.
";

pub const JSON: &str = "\
pciplan json COMMAND WORDS
  Prints the answer of a command as one JSON document on one line, with the
  status and the messages of that command. COMMAND WORDS are those of check,
  faults, map or show, or of plan or settle with --writes. The file
  docs/answer.schema.json of the source tree is the schema of the documents.
";

pub const PICTURE: &str = "\
pciplan picture DUMP PROBE [--root LIST] [--model WORDS] [--host-io LIST]
    [--host-mem LIST] [--also FILE]
  Prints the map as a picture (SVG), with the tree of buses and the faults with
  their reasons. Each section of the map is drawn as nested boxes on an axis of
  addresses. A box has its line of map and its faults as its title, which a
  browser shows under the pointer. The options, the messages and the faults are
  those of map.
  --root LIST
    The buses on which the host's accesses start: two lower-case hex digits
    each, rising, with commas between them. 00 if it isn't said. On Linux they
    are in the names of /sys/devices/pci0000:*: 00,40 for pci0000:00 and
    pci0000:40.
  --model WORDS
    faults, map and settle take functions otherwise than their registers say:
    one or more of cardbus, ide, isa, power, reset, snoop, subtractive,
    unclaimed, unnumbered, windows and one of vga and vga16, in any order, with
    commas between them, none twice; or all, which is all but vga16, so a bridge
    decodes ten bits of a port unless its bit VGA 16-bit Decode is set. cardbus
    takes a CardBus bridge (header layout 2) as a device that decodes no
    address; ide leaves out the BARs of IDE channels in compatibility mode; isa
    takes the I/O window of a bridge with ISA Enable to claim, below 64 KB, the
    first 256 ports of each KB alone; power takes a function that isn't in D0 as
    one that decodes nothing; reset and subtractive take away the faults 55 and
    54 of a bridge behind which no function is listed; snoop takes a bridge with
    VGA Palette Snoop to claim the ports of a palette and to forward writes to
    them, and a device with it to answer no more for it; unclaimed takes a
    bridge of class 060401h that is alone of this class on its bus to pass each
    address that no BAR, ROM, window, legacy part, palette part or told range of
    its bus claims; unnumbered takes a bridge whose bus numbers are 0 and whose
    windows claim nothing as one that leads nowhere; vga judges what bridges
    with VGA Enable forward to a display, and not what the display itself
    answers: the legacy addresses, which come again in each KB of I/O space
    where the bridge decodes ten bits alone; vga16 takes each of them to decode
    16 bits; windows takes a bridge's window whose read back is of none (26) as
    the one that its registers show. settle settles what the words take, and
    writes the registers of the functions as they are. It leaves functions that
    sleep, or are behind a bridge that sleeps, as they are, and bridges that
    reset, unnumbered or windows takes otherwise. Nothing is placed on what vga,
    vga16 and snoop take bridges to claim. What is settled is sound by faults
    with the same words; where that can't be had, the line is the fault that is
    left.
  --host-io LIST
  --host-mem LIST
    faults judges beside what the host sends to its root buses, and map shows
    what of that is free there and what isn't within it: none, or ranges with
    commas between them, each A-B for all root buses or bb:A-B for the root bus
    bb alone, from address A to address B, each of 1 to 16 lower-case hex
    digits. Of a space without a list all is sent to each.
  --also FILE
    faults judges, and map and picture show, what functions answer that no BAR
    shows: of virtual functions, of Enhanced Allocation, or of a chipset. settle
    places nothing there, and keeps the windows over it, or lets them grow. A
    line of the file is S SPACE A-B MARK, and a name where one is wanted. SPACE
    is io, mem or pref. MARK is command (while Command of the function enables
    the space), always, or held (somebody there answers it). A range is named by
    its slot and line, as in 01:00.0 +1.
";

pub const EXPLAIN: &str = "\
pciplan explain [WORD]
  Prints what a fault is, what it mostly comes from and what to do. WORD is the
  number of a fault, its name in any case, or a command. Of a command its words,
  its answer and its options are printed. Without a word all names are printed,
  with a line for each.
";

pub const VERSION: &str = "\
pciplan version
  Prints pciplan 0.5.
";
