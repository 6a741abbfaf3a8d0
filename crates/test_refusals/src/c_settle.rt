//! Settlings of a board that runs, where a card was plugged in behind its second bridge.
use crate::c_plan::{MANY, NONE};
use crate::c_texts::{Pair, whole};
use pciplan_c::calls::pciplan_settle;
use pciplan_c::denied_spare::DeniedSpare;
use pciplan_c::ending::HeldBack;
use pciplan_c::inputs::Inputs;
use pciplan_c::register_write::RegisterWrite;
use pciplan_c::settle_words::SettleWords;
use pciplan_c::settling::{SettleHeldBack, settle_into};
use std::alloc::{AllocError, Global};
use std::test::Fail;
use test_support::refusing::Refusing;

const PLUGGED_DUMP: &str = "00:01.0
00: 34 12 78 56 06 00 00 00 00 00 00 00 00 00 01 00
10: 00 00 00 00 00 00 00 00 00 01 01 00 00 00 00 00
20: 00 e0 00 e0 00 00 00 00 00 00 00 00 00 00 00 00

00:02.0
00: 34 12 78 56 06 00 00 00 00 00 00 00 00 00 01 00
10: 00 00 00 00 00 00 00 00 00 02 02 00 00 00 00 00
20: 10 e0 10 e0 00 00 00 00 00 00 00 00 00 00 00 00

01:00.0
00: 34 12 78 56 06 00 00 00 00 00 00 00 00 00 00 00
10: 00 00 00 e0 00 00 00 00 00 00 00 00 00 00 00 00

02:00.0
00: 34 12 78 56 00 00 00 00 00 00 00 00 00 00 00 00";

const PLUGGED_PROBE: &str = "00:01.0
20: f0 ff f0 ff 00 00 00 00 00 00 00 00 00 00 00 00

00:02.0
20: f0 ff f0 ff 00 00 00 00 00 00 00 00 00 00 00 00

01:00.0
10: 00 c0 ff ff 00 00 00 00 00 00 00 00 00 00 00 00

02:00.0
10: 00 c0 ff ff 00 00 00 00 00 00 00 00 00 00 00 00";

/// The probe of the card, the size of whose BAR nobody told.
const ASSUMED_PROBE: &str = "00:01.0
20: f0 ff f0 ff 00 00 00 00 00 00 00 00 00 00 00 00

00:02.0
20: f0 ff f0 ff 00 00 00 00 00 00 00 00 00 00 00 00

01:00.0
10: 00 c0 ff ff 00 00 00 00 00 00 00 00 00 00 00 00

02:00.0 assumed 10
10: 00 c0 ff ff 00 00 00 00 00 00 00 00 00 00 00 00";

/// The texts of the board.
fn plugged_pair(alloc: Global) -> Result<Pair, AllocError> {
    Ok(Pair {
        dump: whole(alloc, PLUGGED_DUMP)?,
        probe: whole(alloc, PLUGGED_PROBE)?,
    })
}

/// The writes of settling: the card's alone.
const WRITES: [RegisterWrite; 2] = [
    RegisterWrite {
        bus: 2,
        device: 0,
        function: 0,
        offset: 0x10,
        width: 4,
        value: 0xe010_0000,
    },
    RegisterWrite {
        bus: 2,
        device: 0,
        function: 0,
        offset: 0x04,
        width: 2,
        value: 0x0002,
    },
];

/// An entry of an array that nothing was put into.
const NO_SPARE: DeniedSpare = DeniedSpare {
    bus: 99,
    device: 99,
    function: 99,
    offset: 99,
};

/// What is asked for: the ranges of memory, what may not be written, what is told, and whether all is placed anew.
fn asked<'a>(mem: &'a [u8], fixed: &'a [u8], also: &'a [u8], anew: u8) -> SettleWords<'a> {
    SettleWords {
        io: b"none",
        mem,
        pref: b"none",
        fixed,
        spare: b"",
        slots: b"",
        also,
        anew,
    }
}

/// A call: the ranges of memory, what is fixed, what is told, room for writes and bytes; the status, the counts of writes and
/// bytes, and what is put into the line.
type Call<'a> = (
    &'a [u8],
    &'a [u8],
    &'a [u8],
    usize,
    usize,
    u8,
    usize,
    usize,
    &'a str,
);

/// Whether a call, with all placed anew or not, answers this status and these counts, and puts exactly the card's writes and this
/// line.
fn is_as_said(alloc: Global, texts: &Pair, call: &Call, anew: u8) -> bool {
    let (mem, fixed, also, few, bytes, status, count, used, text) = *call;
    let mut put = [NONE; 4];
    let mut line = [b'.'; 64];
    let (mut writes_used, mut safe_from, mut line_used) = (99, 99, 99);
    let mut denied = [NO_SPARE; 2];
    let mut denied_used = 99;
    if put.len() < few || line.len() < bytes {
        return false;
    }
    let answered = pciplan_settle(
        alloc,
        texts.dump.as_bytes(),
        texts.probe.as_bytes(),
        &[0],
        &asked(mem, fixed, also, anew),
        &mut put[..few],
        &mut writes_used,
        &mut safe_from,
        &mut denied,
        &mut denied_used,
        &mut line[..bytes],
        &mut line_used,
    );
    let made = if status == 0 { 2 } else { 0 };
    answered == status
        && writes_used == count
        && safe_from == (if status == 0 { 0 } else { 99 })
        && line_used == used
        && denied_used == 0
        && denied == [NO_SPARE; 2]
        && put[..made] == WRITES[..made]
        && put[made..].iter().all(|write| *write == NONE)
        && text.len() <= 64
        && line[..text.len()] == text.as_bytes()[..text.len()]
        && line[text.len()..].iter().all(|byte| *byte == b'.')
}

#[test]
fn a_settling_is_put_as_a_whole_or_not_at_all(rt: HostRuntime) -> Result<(), Fail> {
    let texts = plugged_pair(rt.alloc())?;
    let fixed = "no 74 Fixed 02:00.0 10\n";
    let no_room = "no 72 NoRoom mem 00:01.0 20 100000 100000\n";
    let cases: [Call; 9] = [
        (b"e0000000-e02fffff", b"", b"", 4, 64, 0, 2, 0, ""),
        (
            b"e0000000-e02fffff",
            b"00:01.0,01:00.0",
            b"",
            2,
            0,
            0,
            2,
            0,
            "",
        ),
        (b"e0000000-e02fffff", b"", b"", 1, 64, 4, 2, 0, ""),
        (
            b"e0000000-e02fffff",
            b"02:00.0",
            b"",
            4,
            64,
            1,
            0,
            23,
            fixed,
        ),
        (b"e0000000-e02fffff", b"02:00.0", b"", 4, 22, 4, 0, 23, ""),
        (b"none", b"", b"", 4, 64, 1, 0, 42, no_room),
        (b"0-", b"02:00", b"", 4, 64, 2, 0, 8, "pool mem"),
        (b"none", b"\xff", b"", 4, 64, 2, 0, 5, "fixed"),
        (b"\xff", b"", b"", 4, 64, 2, 0, 8, "pool mem"),
    ];
    for call in cases {
        assert!(rt; is_as_said(rt.alloc(), &texts, &call, 0), "{call:?}");
    }
    Ok(())
}

#[test]
fn a_settling_is_told_of_ranges(rt: HostRuntime) -> Result<(), Fail> {
    let texts = plugged_pair(rt.alloc())?;
    let mem = b"e0000000-e02fffff";
    let inside = b"01:00.0 mem 00000000e0004000-00000000e000bfff always vf0\n";
    let outside = b"01:00.0 mem 00000000e0200000-00000000e0203fff always\n";
    let unlisted = b"03:00.0 mem 00000000e0200000-00000000e0203fff command\n";
    let (told, not_listed) = ("no 75 Told 01:00.0 +1\n", "no 34 NotListed 03:00.0\n");
    let cases: [Call; 4] = [
        (mem, b"", inside, 4, 64, 0, 2, 0, ""),
        (mem, b"", outside, 4, 64, 1, 0, 22, told),
        (mem, b"", unlisted, 4, 64, 1, 0, 24, not_listed),
        (
            mem,
            b"",
            b"01:00.0 mem 0\n",
            4,
            64,
            2,
            0,
            17,
            "also: 5 BadLine 1",
        ),
    ];
    for call in cases {
        assert!(rt; is_as_said(rt.alloc(), &texts, &call, 0), "{call:?}");
        assert!(rt; is_as_said(rt.alloc(), &texts, &call, 1), "{call:?}");
    }
    Ok(())
}

#[test]
fn a_settling_by_an_assumed_size_is_refused(rt: HostRuntime) -> Result<(), Fail> {
    let texts = Pair {
        dump: whole(rt.alloc(), PLUGGED_DUMP)?,
        probe: whole(rt.alloc(), ASSUMED_PROBE)?,
    };
    let assumed = "no 76 Assumed 02:00.0 10\n";
    let call: Call = (b"e0000000-e02fffff", b"", b"", 4, 64, 1, 0, 25, assumed);
    assert!(rt; is_as_said(rt.alloc(), &texts, &call, 0));
    Ok(())
}

#[test]
fn a_settling_that_is_refused_a_growth_says_just_that(rt: HostRuntime) -> Result<(), Fail> {
    let texts = plugged_pair(rt.alloc())?;
    let inputs = Inputs {
        dump: texts.dump.as_bytes(),
        probe: texts.probe.as_bytes(),
        roots: &[0],
    };
    let heap = Refusing::new(rt.alloc());
    for anew in [0, 1] {
        for n in 1..MANY {
            heap.refuse(n);
            let mut put = [NONE; 16];
            let mut line = [b'.'; 64];
            let words = asked(b"e0000000-e02fffff", b"01:00.0", b"", anew);
            let mut denied = [NO_SPARE; 2];
            let answered = settle_into(&heap, &inputs, &words, &mut put, &mut denied, &mut line);
            if heap.is_due() {
                assert!(rt; 1 < n && answered.is_ok());
                break;
            }
            assert!(rt; answered == Err(SettleHeldBack::HeldBack(HeldBack::Memory)));
            assert!(rt; put == [NONE; 16] && line == [b'.'; 64] && denied == [NO_SPARE; 2]);
        }
    }
    Ok(())
}
