//! Plans of a board that was never set up: a bridge with a device behind it, and a device beside it.
use crate::c_texts::{Pair, whole};
use pciplan_c::calls::pciplan_plan;
use pciplan_c::ending::HeldBack;
use pciplan_c::inputs::Inputs;
use pciplan_c::planning::plan_into;
use pciplan_c::pools::PoolsOfC;
use pciplan_c::register_write::RegisterWrite;
use std::alloc::{AllocError, Global};
use std::test::Fail;
use test_support::refusing::Refusing;

const BARE_DUMP: &str = "00:01.0
00: 34 12 78 56 00 00 00 00 00 00 00 00 00 00 01 00
10: 00 00 00 00 00 00 00 00 00 01 01 00 00 00 00 00

00:02.0
00: 34 12 78 56 00 00 00 00 00 00 00 00 00 00 00 00

01:00.0
00: 34 12 78 56 00 00 00 00 00 00 00 00 00 00 00 00";

const BARE_PROBE: &str = "00:01.0
20: f0 ff f0 ff 00 00 00 00 00 00 00 00 00 00 00 00

00:02.0
10: 00 00 f0 ff 00 00 00 00 00 00 00 00 00 00 00 00

01:00.0
10: 00 00 f0 ff 00 f0 ff ff 00 00 00 00 00 00 00 00";

/// The texts of the board.
fn bare_pair(alloc: Global) -> Result<Pair, AllocError> {
    Ok(Pair {
        dump: whole(alloc, BARE_DUMP)?,
        probe: whole(alloc, BARE_PROBE)?,
    })
}

/// Pools of which that of memory ends at an address.
fn pools_to(mem_last: u64) -> PoolsOfC {
    PoolsOfC {
        io_first: 0x1000,
        io_last: 0xffff,
        mem_first: 0xe000_0000,
        mem_last,
        pref_first: 0x1_0000_0000,
        pref_last: 0x1_ffff_ffff,
    }
}

/// A write of two or four bytes.
fn write(bus: u8, device: u8, offset: u8, width: u8, value: u32) -> RegisterWrite {
    RegisterWrite {
        bus,
        device,
        function: 0,
        offset,
        width,
        value,
    }
}

/// The writes of the plan.
fn writes() -> [RegisterWrite; 7] {
    [
        write(0, 1, 0x20, 4, 0xe010_e000),
        write(0, 2, 0x10, 4, 0xe020_0000),
        write(1, 0, 0x10, 4, 0xe000_0000),
        write(1, 0, 0x14, 4, 0xe010_0000),
        write(0, 1, 0x04, 2, 0x0002),
        write(0, 2, 0x04, 2, 0x0002),
        write(1, 0, 0x04, 2, 0x0002),
    ]
}

/// A write that is none.
pub const NONE: RegisterWrite = RegisterWrite {
    bus: 0xa5,
    device: 0xa5,
    function: 0xa5,
    offset: 0xa5,
    width: 0xa5,
    value: 0xa5,
};

/// A call: roots, the last address of memory, room for writes and bytes; the status, the counts of writes and bytes, and
/// what is put into the line.
type Call<'a> = (&'a [u8], u64, usize, usize, u8, usize, usize, &'a str);

/// Whether a call answers this status and these counts, and puts exactly the plan's writes and this line.
fn is_as_said(alloc: Global, texts: &Pair, call: &Call) -> bool {
    let (roots, mem_last, few, bytes, status, count, used, text) = *call;
    let mut put = [NONE; 8];
    let mut line = [b'.'; 20];
    let (mut writes_used, mut safe_from, mut line_used) = (99, 99, 99);
    if put.len() < few || line.len() < bytes {
        return false;
    }
    let answered = pciplan_plan(
        alloc,
        texts.dump.as_bytes(),
        texts.probe.as_bytes(),
        roots,
        &pools_to(mem_last),
        &mut put[..few],
        &mut writes_used,
        &mut safe_from,
        &mut line[..bytes],
        &mut line_used,
    );
    let planned = writes();
    let made = if status == 0 { 7 } else { 0 };
    answered == status
        && writes_used == count
        && safe_from == (if status == 0 { 0 } else { 99 })
        && line_used == used
        && put[..made] == planned[..made]
        && put[made..].iter().all(|write| *write == NONE)
        && text.len() <= 20
        && line[..text.len()] == text.as_bytes()[..text.len()]
        && line[text.len()..].iter().all(|byte| *byte == b'.')
}

#[test]
fn a_plan_is_put_as_a_whole_or_not_at_all(rt: HostRuntime) -> Result<(), Fail> {
    let texts = bare_pair(rt.alloc())?;
    let no_room = "no 72 NoRoom mem\n";
    let cases: [Call; 6] = [
        (&[0], 0xe02f_ffff, 8, 20, 0, 7, 0, ""),
        (&[0], 0xe02f_ffff, 7, 0, 0, 7, 0, ""),
        (&[0], 0xe02f_ffff, 6, 20, 4, 7, 0, ""),
        (&[0], 0xe01f_ffff, 8, 20, 1, 0, 17, no_room),
        (&[0], 0xe01f_ffff, 8, 16, 4, 0, 17, ""),
        (&[], 0xe02f_ffff, 8, 20, 2, 0, 4, "root"),
    ];
    for call in cases {
        assert!(rt; is_as_said(rt.alloc(), &texts, &call), "{call:?}");
    }
    Ok(())
}

/// More growths than a call here asks for.
pub const MANY: u64 = 1000;

#[test]
fn a_plan_that_is_refused_a_growth_says_just_that(rt: HostRuntime) -> Result<(), Fail> {
    let texts = bare_pair(rt.alloc())?;
    let inputs = Inputs {
        dump: texts.dump.as_bytes(),
        probe: texts.probe.as_bytes(),
        roots: &[0],
    };
    let heap = Refusing::new(rt.alloc());
    for mem_last in [0xe02f_ffff, 0xe01f_ffff] {
        for n in 1..MANY {
            heap.refuse(n);
            let mut put = [NONE; 8];
            let mut line = [b'.'; 20];
            let pools = pools_to(mem_last);
            let answered = plan_into(&heap, &inputs, &pools, &mut put, &mut line);
            if heap.is_due() {
                assert!(rt; 1 < n && answered.is_ok());
                break;
            }
            assert!(rt; answered == Err(HeldBack::Memory));
            assert!(rt; put == [NONE; 8] && line == [b'.'; 20]);
        }
    }
    Ok(())
}
