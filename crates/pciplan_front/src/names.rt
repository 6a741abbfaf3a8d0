//! The list of all names. `tests/explain.py --write` makes this file of the pages in docs/.

/// The faults and the commands, a line for each: number and name, or name, and the first sentence of its text.
pub const NAMES: &str = "\
1 Io: The text couldn't be opened or read.
2 Memory: Memory was wanting.
3 BadSlot: No slot, as 00:1f.3, stands where one belongs.
4 BadTitle: What stands behind a slot and a space isn't a title of 1 to 200 bytes.
5 BadLine: A line of bytes, or of sizes, isn't in form.
6 NoBlank: A block doesn't end in an empty line.
7 Order: The slot isn't above the one before.
8 TooMany: There are more than 4,096 functions, or lines of --also.
9 Ended: The text ends within a block.
10 Io: The output couldn't be written.
20 NoVendor: The Vendor ID reads FFFFh.
21 HeaderKind: The header's layout is neither 0 nor 1.
22 BarType: The type of a memory BAR is reserved.
23 BarMask: A BAR's read back is of no BAR, or its value doesn't go with it.
24 BarPair: A 64-bit BAR has no register for its upper half.
25 RomMask: The same as 23, of the expansion ROM.
26 WindowMask: The same as 23, of a bridge's window.
27 CapRange: The capabilities list leads below 40h.
28 CapLoop: The capabilities list comes to a place twice.
29 CapCut: A capability passes the end of the 256 bytes.
30 SlotsDiffer: One of the two texts alone lists the slot.
31 StrayProbe: The probe has a byte outside the address registers.
32 NoSize: A BAR that shows something, or an enabled ROM, has no size told.
33 OtherSize: The register shows 0, and what is told isn't of it.
34 NotListed: A command or always line of --also names a function that the dump doesn't list.
50 LoneFunction: The device's function 0 isn't listed.
51 PaletteSnoop: Command bit 5 is set.
52 VgaEnable: Bridge Control bit 3 is set.
53 IsaEnable: Bridge Control bit 2 is set.
54 Subtractive: It is a bridge of class 060401h.
55 InReset: Bridge Control bit 6 is set.
56 PowerState: A power management capability shows another state than D0.
57 BusRange: A bridge's bus numbers don't fit.
58 Orphan: No bridge leads to the function's bus, and it is no root.
60 Unreached: An enabled BAR or ROM has this address, and the bridge on the way to it doesn't pass it.
61 Clash: Two enabled regions of the bus answer the address, and an access to it gets there.
62 Split: Regions on two root buses answer the address.
63 Outside: An enabled BAR or ROM has this address, and it isn't sent to the root bus above.
70 BadPools: A pool or a range is backward, or memory ends above FFFFFFFFh.
71 NoWindow: An I/O BAR of the function is behind a bridge without an I/O window.
72 NoRoom: What is of the class (or mem, or pref) doesn't fit its pool.
73 NotAccepted: A plan isn't sound, by the fault that follows.
74 Fixed: This part of the function can't be left where it is, or the function would be written.
75 Told: Line n, a command or always range of the function, isn't reached as the board stands.
76 Assumed: A title of the probe names this BAR, or this ROM whose bit 0 is set, as assumed.
77 TooManyRanges: There are more than 4,096 ranges of --also and of bridges' legacy parts and palette parts.
80 Changed: The register at offset oo isn't as the plan starts from.
81 Port: An access failed, or a function of the plan isn't there.
82 Stuck: The n-th write was made and reads back otherwise.
here: Reads the Linux machine that it runs on and judges it.
show: Prints what each function decodes to.
check: Prints yes, or the first of the faults 20 to 31 and 50 to 62.
faults: Prints yes, or a line for each fault of the earliest phase that has any, without the no.
map: Prints which enabled BAR, ROM or window sits where, what is inside each window.
size: Prints the probe that firmware sizing register by register would read.
plan: Places all that has an address in three pools, and prints the planned dump.
settle: Leaves what works where it is, and places the rest in three lists of ranges.
probe: Prints the probe that is derived of the dump and the sizes that Linux found.
json: Prints the answer of a command as one JSON document on one line.
picture: Prints the map as a picture (SVG), with the tree of buses and the faults with their reasons.
explain: Prints what a fault is, what it mostly comes from and what to do.
version: Prints pciplan 0.5.
";
