use pci_base::range::Range;
use pci_image::fault::ImageFault;
use pci_image::window::{Window, Windows};
use test_support::registers::{Registers, bridge, device};

/// Whether a window has upper halves, and its range.
type Shown = Option<(bool, Option<Range>)>;

fn shown(window: Option<Window>) -> Shown {
    window.map(|w| (w.wide(), w.range()))
}

/// An open window.
fn open(wide: bool, first: u64, last: u64) -> Shown {
    Some((wide, Some(Range { first, last })))
}

/// The windows of a bridge: I/O, memory and prefetchable memory.
fn windows_of(function: &Registers) -> Result<(Shown, Shown, Shown), ImageFault> {
    let windows = Windows::of(&function.image, &function.probe)?;
    Ok((
        shown(windows.io),
        shown(Some(windows.mem)),
        shown(windows.pref),
    ))
}

/// A bridge with an I/O window: its value and read back at 1ch, and those of its upper halves at 30h.
fn with_io(low: u16, low_read_back: u16, upper: u32, upper_read_back: u32) -> Registers {
    bridge()
        .half(0x1c, low, low_read_back)
        .register(0x30, upper, upper_read_back)
}

/// A bridge with a prefetchable window: value and read back at 24h, and at 28h and 2ch the upper halves
/// of base and limit, which are whole.
fn with_wide_prefetchable(value: u32, base_upper: u32, limit_upper: u32) -> Registers {
    bridge()
        .register(0x24, value, 0xfff1_fff1)
        .register(0x28, base_upper, 0xffff_ffff)
        .register(0x2c, limit_upper, 0xffff_ffff)
}

/// The memory window that `bridge` has, of the page at 0.
const FIRST_PAGE: Shown = Some((
    false,
    Some(Range {
        first: 0,
        last: 0xf_ffff,
    }),
));

#[test]
fn an_io_window_holds_from_its_base_to_the_end_of_its_last_page(rt: HostRuntime) {
    let rows = [
        (bridge(), None),
        (with_io(0x0000, 0xf0f0, 0, 0), open(false, 0, 0xfff)),
        (
            with_io(0xf1e1, 0xf1f1, 0x0001_0001, 0xffff_ffff),
            open(true, 0x1_e000, 0x1_ffff),
        ),
        (
            with_io(0xf1f1, 0xf1f1, 0xffff_ffff, 0xffff_ffff),
            open(true, 0xffff_f000, 0xffff_ffff),
        ),
        // closed
        (with_io(0x00f0, 0xf0f0, 0, 0), Some((false, None))),
        (with_io(0x01f1, 0xf1f1, 0, 0xffff_ffff), Some((true, None))),
    ];
    for (function, io) in rows {
        assert!(rt;
            windows_of(&function) == Ok((io, FIRST_PAGE, None)),
            "{io:?}"
        );
    }
}

#[test]
fn a_memory_window_holds_from_its_base_to_the_end_of_its_last_page(rt: HostRuntime) {
    let closed = bridge().register(0x20, 0x0000_fff0, 0xfff0_fff0);
    assert!(rt; windows_of(&closed) == Ok((None, Some((false, None)), None)));
    let both = bridge()
        .register(0x20, 0xe010_e000, 0xfff0_fff0)
        .register(0x24, 0xe000_e000, 0xfff0_fff0);
    let memory = open(false, 0xe000_0000, 0xe01f_ffff);
    let prefetchable = open(false, 0xe000_0000, 0xe00f_ffff);
    assert!(rt; windows_of(&both) == Ok((None, memory, prefetchable)));
}

#[test]
fn a_wide_prefetchable_window_has_addresses_of_64_bits(rt: HostRuntime) {
    let rows = [
        (
            with_wide_prefetchable(0x0001_0001, 1, 1),
            open(true, 0x1_0000_0000, 0x1_000f_ffff),
        ),
        (
            with_wide_prefetchable(0xfff1_0001, 0, 0xffff_ffff),
            open(true, 0, 0xffff_ffff_ffff_ffff),
        ),
    ];
    for (function, prefetchable) in rows {
        assert!(rt;
            windows_of(&function) == Ok((None, FIRST_PAGE, prefetchable)),
            "{prefetchable:?}"
        );
    }
}

/// Whether a function's windows are refused with this fault.
fn is_refused(function: &Registers, fault: ImageFault) -> bool {
    matches!(Windows::of(&function.image, &function.probe), Err(found) if found == fault)
}

#[test]
fn an_io_window_that_is_not_decoded_is_refused(rt: HostRuntime) {
    let rows = [
        // half implemented
        with_io(0x0000, 0xf1f0, 0, 0),
        with_io(0x0000, 0x00f0, 0, 0),
        with_io(0x0101, 0xf1f1, 0, 0),
        with_io(0x0000, 0xf0f0, 0, 0xffff),
        with_io(0x0101, 0xf1f1, 0, 0xffff),
        // values that don't go with the read backs
        with_io(0x0001, 0xf0f0, 0, 0),
        with_io(0x0010, 0x0000, 0, 0),
        with_io(0x0000, 0xf0f0, 0x0001_0000, 0),
        // I/O comes before memory
        with_io(0x0000, 0x00f0, 0, 0).register(0x20, 0, 0),
    ];
    for function in rows {
        assert!(rt; is_refused(&function, ImageFault::WindowMask(0x1c)));
    }
}

#[test]
fn a_memory_window_that_is_not_decoded_is_refused(rt: HostRuntime) {
    let rows = [
        bridge().register(0x20, 0, 0),
        bridge().register(0x20, 0, 0xfff1_fff1),
        bridge().register(0x20, 0x0000_0001, 0xfff0_fff0),
    ];
    for function in rows {
        assert!(rt; is_refused(&function, ImageFault::WindowMask(0x20)));
    }
}

#[test]
fn a_prefetchable_window_that_is_not_decoded_is_refused(rt: HostRuntime) {
    let rows = [
        bridge().register(0x24, 0x0001_0001, 0xfff1_fff1),
        bridge().register(0x24, 0, 0xfff0_fff0).register(0x28, 1, 0),
        bridge().register(0x28, 0, 0xffff_ffff),
    ];
    for function in rows {
        assert!(rt; is_refused(&function, ImageFault::WindowMask(0x24)));
    }
}

#[test]
fn windows_of_no_bridge_are_refused(rt: HostRuntime) {
    let vacant = bridge().bytes(0x00, &[0xff, 0xff]);
    assert!(rt; is_refused(&vacant, ImageFault::NoVendor));
    assert!(rt; is_refused(&device(), ImageFault::HeaderKind));
    let other = device().byte(0x0e, 0x02);
    assert!(rt; is_refused(&other, ImageFault::HeaderKind));
}
