//! The words of options: lists of ranges and of slots, and spares.
use pci_base::range::RootRange;
use pci_base::slot::Slot;
use pci_tree::roots::Roots;
use pciplan_lists::host_list::is_good_host_list;
use pciplan_lists::list_word::list_of_word;
use pciplan_lists::slot_list::slots_of_word;
use pciplan_lists::spare_word::spares_of_word;
use std::alloc::Global;

/// Words of lists, and their ranges: the root bus or None, the first and the last address.
const LISTS: &[(&str, &[(Option<u8>, u64, u64)])] = &[
    ("none", &[]),
    ("0-0", &[(None, 0, 0)]),
    ("1000-1fff", &[(None, 0x1000, 0x1fff)]),
    ("00:1000-1fff", &[(Some(0x00), 0x1000, 0x1fff)]),
    ("ff:a-b", &[(Some(0xff), 0xa, 0xb)]),
    ("0-ffffffffffffffff", &[(None, 0, 0xffff_ffff_ffff_ffff)]),
    (
        "fedcba9876543210-0000000000000001",
        &[(None, 0xfedc_ba98_7654_3210, 1)],
    ),
    ("2-1", &[(None, 2, 1)]),
    ("1-2,3-4", &[(None, 1, 2), (None, 3, 4)]),
    ("3-4,1-2", &[(None, 3, 4), (None, 1, 2)]),
    ("1-2,1-2", &[(None, 1, 2), (None, 1, 2)]),
    ("40:1-2,3-4", &[(Some(0x40), 1, 2), (None, 3, 4)]),
    ("1-2,40:3-4", &[(None, 1, 2), (Some(0x40), 3, 4)]),
    (
        "1-2,40:3-4,0a:5-6",
        &[(None, 1, 2), (Some(0x40), 3, 4), (Some(0x0a), 5, 6)],
    ),
    ("dead-beef", &[(None, 0xdead, 0xbeef)]),
    ("e-f", &[(None, 0xe, 0xf)]),
];

/// Words of no list.
const OTHERS: &[&str] = &[
    "",
    ",",
    "none,",
    ",none",
    "none,none",
    "1-2,none",
    "none,1-2",
    "None",
    "non",
    "none ",
    "1-2,",
    ",1-2",
    "1-2,,3-4",
    "1-2, 3-4",
    " 1-2",
    "1-2 ",
    "1",
    "-",
    "1-",
    "-2",
    "1-2-3",
    "1--2",
    "12",
    "A-B",
    "a-B",
    "1g-20",
    "0x1-0x2",
    "00000000000000001-2",
    "1-10000000000000000",
    "+1-2",
    "0:1-2",
    "000:1-2",
    ":1-2",
    "0A:1-2",
    "0g:1-2",
    "00:",
    "00:1",
    "00:00:1-2",
    "00-1-2",
    "1-2;3-4",
];

/// Lists of what the host sends to the root buses 00 and 40, and whether they are taken.
const HOST_LISTS: &[(&str, bool)] = &[
    ("none", true),
    ("1000-1fff", true),
    ("0-ffffffffffffffff", true),
    ("1-1", true),
    ("2-1", false),
    ("00:2-1", false),
    ("40:1-2", true),
    ("41:1-2", false),
    ("1-2,3-4", true),
    ("1-2,2-3", false),
    ("3-4,1-3", false),
    ("1-8,2-3", false),
    ("1-2,5-5,2-2", false),
    ("00:1-2,40:1-2", true),
    ("00:1-2,00:2-3", false),
    ("1-2,40:2-3", false),
    ("40:2-3,1-2", false),
    ("00:1-2,40:1-2,3-4,41:5-6", false),
];

/// Words of slots, and the slots: bus, device and function.
const SLOT_LISTS: &[(&str, &[(u8, u8, u8)])] = &[
    ("00:02.0", &[(0x00, 0x02, 0)]),
    ("ff:1f.7", &[(0xff, 0x1f, 7)]),
    ("00:02.0,01:00.0", &[(0x00, 0x02, 0), (0x01, 0x00, 0)]),
    ("00:02.0,00:02.1", &[(0x00, 0x02, 0), (0x00, 0x02, 1)]),
    ("00:02.7,00:03.0", &[(0x00, 0x02, 7), (0x00, 0x03, 0)]),
    (
        "0a:00.0,0b:00.0,a0:10.5",
        &[(0x0a, 0x00, 0), (0x0b, 0x00, 0), (0xa0, 0x10, 5)],
    ),
];

/// Words of no slots.
const NO_SLOTS: &[&str] = &[
    "",
    ",",
    "none",
    "00:02.0,",
    ",00:02.0",
    "00:02.0,,01:00.0",
    "00:02.0, 01:00.0",
    "00:02.0,00:02.0",
    "01:00.0,00:02.0",
    "00:02.1,00:02.0",
    "0A:00.0",
    "00:20.0",
    "00:02.8",
    "0:02.0",
    "00:02.0 ",
    "0000:00:02.0",
];

/// Words of `--spare`, and what they want of I/O, memory and prefetchable memory.
const SPARE_WORDS: &[(&str, (u64, u64, u64))] = &[
    ("io:1000", (0x1000, 0, 0)),
    ("mem:200000", (0, 0x20_0000, 0)),
    ("pref:1", (0, 0, 1)),
    (
        "io:1000,mem:200000,pref:200000",
        (0x1000, 0x20_0000, 0x20_0000),
    ),
    ("io:0f,pref:a", (0xf, 0, 0xa)),
    ("mem:1,pref:ffffffffffffffff", (0, 1, 0xffff_ffff_ffff_ffff)),
];

/// Other words.
const NO_SPARES: &[&str] = &[
    "",
    ",",
    "none",
    "io",
    "io:",
    "io:0",
    "io:00",
    "mem:0,pref:1",
    "io:1,",
    ",io:1",
    "io:1,,mem:1",
    "io:1,io:1",
    "mem:1,io:1",
    "pref:1,mem:1",
    "io:1,mem:1,pref:1,io:1",
    "io:1, mem:1",
    "IO:1",
    "io:A",
    "io:0x1",
    "io:10000000000000000",
    "io:1-2",
    "memory:1",
    "1000",
];

/// Whether a range is as the table has it.
fn is_range(one: &RootRange, named: &(Option<u8>, u64, u64)) -> bool {
    (one.root, one.range.first, one.range.last) == *named
}

/// The ranges as the table has them.
fn same(list: &[RootRange], ranges: &[(Option<u8>, u64, u64)]) -> bool {
    list.len() == ranges.len()
        && list
            .iter()
            .zip(ranges)
            .all(|(one, named)| is_range(one, named))
}

fn has_ranges(alloc: Global, word: &str, ranges: &[(Option<u8>, u64, u64)]) -> bool {
    match list_of_word(alloc, word) {
        Ok(Some(list)) => same(&list, ranges),
        _ => false,
    }
}

fn is_no_list(alloc: Global, word: &str) -> bool {
    matches!(list_of_word(alloc, word), Ok(None))
}

/// Whether a slot is as the table has it.
fn is_slot(slot: Slot, numbers: &(u8, u8, u8)) -> bool {
    let (bus, dev, fun) = *numbers;
    Slot::new(bus, dev, fun) == Some(slot)
}

/// The slots as the table has them.
fn same_slots(slots: &[Slot], numbers: &[(u8, u8, u8)]) -> bool {
    slots.len() == numbers.len()
        && slots
            .iter()
            .zip(numbers)
            .all(|(slot, named)| is_slot(*slot, named))
}

fn has_slots(alloc: Global, word: &str, numbers: &[(u8, u8, u8)]) -> bool {
    match slots_of_word(alloc, word) {
        Ok(Some(slots)) => same_slots(&slots, numbers),
        _ => false,
    }
}

fn is_no_slots(alloc: Global, word: &str) -> bool {
    matches!(slots_of_word(alloc, word), Ok(None))
}

/// Whether a list of what the host sends is taken, where it is one.
fn is_taken(alloc: Global, roots: &Roots, word: &str) -> Option<bool> {
    match list_of_word(alloc, word) {
        Ok(Some(list)) => Some(is_good_host_list(roots, &list)),
        _ => None,
    }
}

/// Whether the sizes of a word are as the table has them.
fn wants(word: &str, sizes: &(u64, u64, u64)) -> bool {
    match spares_of_word(word) {
        Some(found) => (found.io, found.memory, found.prefetchable) == *sizes,
        None => false,
    }
}

#[test]
fn a_word_of_spares_has_its_sizes(rt: HostRuntime) {
    for (word, sizes) in SPARE_WORDS {
        assert!(rt; wants(word, sizes), "{word}");
    }
}

#[test]
fn words_of_no_spares_are_refused(rt: HostRuntime) {
    for word in NO_SPARES {
        assert!(rt; spares_of_word(word).is_none(), "{word}");
    }
}

#[test]
fn a_list_has_its_slots(rt: HostRuntime) {
    for (word, numbers) in SLOT_LISTS {
        assert!(rt; has_slots(rt.alloc(), word, numbers), "{word}");
    }
}

#[test]
fn words_of_no_slots_are_refused(rt: HostRuntime) {
    for word in NO_SLOTS {
        assert!(rt; is_no_slots(rt.alloc(), word), "{word}");
    }
}

#[test]
fn a_list_has_its_ranges_in_the_order_of_its_word(rt: HostRuntime) {
    for (word, ranges) in LISTS {
        assert!(rt; has_ranges(rt.alloc(), word, ranges), "{word}");
    }
}

#[test]
fn other_words_are_refused(rt: HostRuntime) {
    for word in OTHERS {
        assert!(rt; is_no_list(rt.alloc(), word), "{word}");
    }
}

#[test]
fn lists_of_what_the_host_sends_are_taken_or_refused(rt: HostRuntime) {
    let roots = Roots::of(&[0x00, 0x40]).unwrap_or(Roots::host());
    for (word, taken) in HOST_LISTS {
        assert!(rt;
            is_taken(rt.alloc(), &roots, word) == Some(*taken),
            "{word}"
        );
    }
}
