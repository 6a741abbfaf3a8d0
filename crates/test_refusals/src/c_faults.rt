//! Lists of the faults of a board whose two devices answer one address.
use crate::c_texts::{Pair, whole};
use pciplan_c::calls::pciplan_faults;
use pciplan_c::faults_words::FaultsWords;
use std::alloc::{AllocError, Global};
use std::test::Fail;

const CLASH_DUMP: &str = "00:01.0
00: 34 12 78 56 02 00 00 00 00 00 00 00 00 00 00 00
10: 00 00 00 e0 00 00 00 00 00 00 00 00 00 00 00 00

00:02.0
00: 34 12 78 56 02 00 00 00 00 00 00 00 00 00 00 00
10: 00 00 00 e0 00 00 00 00 00 00 00 00 00 00 00 00";

const CLASH_PROBE: &str = "00:01.0
10: 00 00 f0 ff 00 00 00 00 00 00 00 00 00 00 00 00

00:02.0
10: 00 00 f0 ff 00 00 00 00 00 00 00 00 00 00 00 00";

const CLASH: &str = "61 Clash bus 00 mem 00000000e0000000 00:01.0 10 00:02.0 10\n";

const REASONS: &str = "61 Clash bus 00 mem 00000000e0000000 00:01.0 10 00:02.0 10
  first 00:01.0 10 bar mem 00000000e0000000-00000000e00fffff 1M
  second 00:02.0 10 bar mem 00000000e0000000-00000000e00fffff 1M
  shared 00000000e0000000-00000000e00fffff 1M
";

const OUTSIDE: &str = "63 Outside 00:01.0 10 mem 00000000e0000000
63 Outside 00:02.0 10 mem 00000000e0000000
";

/// The texts of the board.
fn clash_pair(alloc: Global) -> Result<Pair, AllocError> {
    Ok(Pair {
        dump: whole(alloc, CLASH_DUMP)?,
        probe: whole(alloc, CLASH_PROBE)?,
    })
}

/// What is given beside the texts: words, what the host sends of I/O and of memory, and whether reasons are told.
type Given<'a> = (&'a [u8], &'a [u8], &'a [u8], u8);

/// A call: what is given, the root buses, and the room; the status, and the text that is put or has no room.
type Call<'a> = (Given<'a>, &'a [u8], usize, u8, &'a str);

/// How many bytes a text here may have.
const ROOM: usize = 512;

/// Whether a call answers this status, puts exactly this text where it puts one, and tells its length.
fn is_as_said(alloc: Global, texts: &Pair, call: &Call) -> bool {
    let ((model, host_io, host_mem, why), roots, room, status, text) = *call;
    let words = FaultsWords {
        model,
        host_io,
        host_mem,
        why,
    };
    let mut bytes = [b'.'; ROOM];
    let mut used = 9999;
    if ROOM < room {
        return false;
    }
    let answered = pciplan_faults(
        alloc,
        texts.dump.as_bytes(),
        texts.probe.as_bytes(),
        roots,
        &words,
        &mut bytes[..room],
        &mut used,
    );
    let put = if status < 3 { text.len() } else { 0 };
    answered == status
        && used == text.len()
        && put <= room
        && bytes[..put] == text.as_bytes()[..put]
        && bytes[put..].iter().all(|byte| *byte == b'.')
}

#[test]
fn a_list_is_put_as_a_whole_or_not_at_all(rt: HostRuntime) -> Result<(), Fail> {
    let texts = clash_pair(rt.alloc())?;
    let none: Given = (b"", b"", b"", 0);
    let cases: [Call; 12] = [
        (none, &[0], ROOM, 1, CLASH),
        (none, &[0], 59, 1, CLASH),
        (none, &[0], 58, 4, CLASH),
        ((b"", b"", b"", 1), &[0], ROOM, 1, REASONS),
        ((b"all", b"none", b"", 2), &[0], ROOM, 1, REASONS),
        ((b"", b"", b"none", 0), &[0], ROOM, 1, OUTSIDE),
        (none, &[], ROOM, 2, "root"),
        ((b"power,", b"-", b"-", 0), &[0], ROOM, 2, "model"),
        ((b"power\xff", b"", b"", 0), &[0], ROOM, 2, "model"),
        ((b"power", b"2-1", b"-", 0), &[0], ROOM, 2, "host io"),
        ((b"", b"", b"40:1-2", 0), &[0], 8, 2, "host mem"),
        ((b"", b"", b"\xff", 0), &[0], 7, 4, "host mem"),
    ];
    for call in cases {
        assert!(rt; is_as_said(rt.alloc(), &texts, &call), "{call:?}");
    }
    Ok(())
}

#[test]
fn no_fault_is_a_yes(rt: HostRuntime) {
    let texts = Pair {
        dump: String::new(rt.alloc()),
        probe: String::new(rt.alloc()),
    };
    let call: Call = ((b"", b"", b"", 1), &[0], 4, 0, "yes\n");
    assert!(rt; is_as_said(rt.alloc(), &texts, &call));
}
