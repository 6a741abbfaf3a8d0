//! Calls on texts of emulated machines.
use crate::c_texts::{Pair, desk_pair, old_pair, roots_pair};
use pciplan_c::calls::pciplan_check;
use pciplan_c::put::Withheld;
use pciplan_c::verdict::check_into;
use std::alloc::Global;
use std::test::Fail;
use test_support::refusing::Refusing;

/// A call: two texts, roots and the length of the line; the status, and the text that is put or has no room.
type Call<'a> = (&'a [u8], &'a [u8], &'a [u8], usize, u8, &'a str);

/// What the bytes of a line hold before a call, and the count of a call that tells none.
const FILLED: u8 = 0xa5;

const UNTOLD: usize = 12345;

/// Whether a call answers this status, puts exactly this text where it puts one, and tells its length.
fn is_as_said(alloc: Global, call: &Call) -> bool {
    let (dump, probe, roots, room, status, text) = *call;
    let mut bytes = [FILLED; 96];
    let mut used = UNTOLD;
    if bytes.len() < room {
        return false;
    }
    let answered = pciplan_check(alloc, dump, probe, roots, &mut bytes[..room], &mut used);
    let put = if status < 3 { text.len() } else { 0 };
    answered == status
        && used == text.len()
        && put <= room
        && bytes[..put] == text.as_bytes()[..put]
        && bytes[put..].iter().all(|byte| *byte == FILLED)
}

#[test]
fn each_call_is_answered_as_it_should_be(rt: HostRuntime) -> Result<(), Fail> {
    let old = old_pair(rt.alloc())?;
    let desk = desk_pair(rt.alloc())?;
    let roots = roots_pair(rt.alloc())?;
    let (old_dump, old_probe) = (old.dump.as_bytes(), old.probe.as_bytes());
    let (desk_dump, desk_probe) = (desk.dump.as_bytes(), desk.probe.as_bytes());
    let (roots_dump, roots_probe) = (roots.dump.as_bytes(), roots.probe.as_bytes());
    let cut = match old_dump {
        [first @ .., _] => first,
        [] => old_dump,
    };
    let ended = "dump: 9 Ended 198";
    let cases: [Call; 13] = [
        (old_dump, old_probe, &[0], 96, 0, "yes\n"),
        (b"", b"", &[0], 96, 0, "yes\n"),
        (
            desk_dump,
            desk_probe,
            &[0],
            96,
            1,
            "no 52 VgaEnable 00:02.0\n",
        ),
        (
            old_dump,
            desk_probe,
            &[0],
            96,
            1,
            "no 30 SlotsDiffer 00:01.0\n",
        ),
        (roots_dump, roots_probe, &[0x00, 0x40], 96, 0, "yes\n"),
        (roots_dump, roots_probe, &[0x40, 0x00], 96, 2, "root"),
        (roots_dump, roots_probe, &[], 96, 2, "root"),
        (cut, old_probe, &[0], 96, 2, ended),
        (old_dump, cut, &[0], 96, 2, "probe: 9 Ended 198"),
        (cut, cut, &[0], 96, 2, ended),
        (old_dump, old_probe, &[0], 4, 0, "yes\n"),
        (old_dump, old_probe, &[0], 3, 4, "yes\n"),
        (cut, old_probe, &[0], 16, 4, ended),
    ];
    for call in cases {
        assert!(rt; is_as_said(rt.alloc(), &call), "{call:?}");
    }
    Ok(())
}

/// More growths than any call here asks for.
const MANY: u64 = 1000;

/// Whether a call that is refused a growth, whichever it is, says just that, and else what it says with memory.
fn is_refused_in_turn(alloc: Global, texts: &Pair, cut: usize) -> bool {
    let (dump, probe) = (texts.dump.as_bytes(), texts.probe.as_bytes());
    let dump = &dump[..dump.len().saturating_sub(cut)];
    let heap = Refusing::new(alloc);
    let mut whole = [FILLED; 96];
    let answer = check_into(alloc, dump, probe, &[0], &mut whole);
    for n in 1..MANY {
        heap.refuse(n);
        let mut line = [FILLED; 96];
        let answered = check_into(&heap, dump, probe, &[0], &mut line);
        if heap.is_due() {
            return 1 < n && answered == answer && line == whole;
        }
        if answered != Err(Withheld::Memory) || line != [FILLED; 96] {
            return false;
        }
    }
    false
}

#[test]
fn each_refused_growth_is_told(rt: HostRuntime) -> Result<(), Fail> {
    let old = old_pair(rt.alloc())?;
    let desk = desk_pair(rt.alloc())?;
    for cut in [0, 1] {
        assert!(rt; is_refused_in_turn(rt.alloc(), &old, cut));
        assert!(rt; is_refused_in_turn(rt.alloc(), &desk, cut));
    }
    Ok(())
}
