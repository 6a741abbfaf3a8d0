//! The program on texts that may not be there, and on words that can't be had.
ghost use Rattle.std.specs.Prelude.{None};

use crate::program::Answer;
use pci_base::failures::Failures;
use pci_dump::std_streams::Outgoing;
use pci_dump::streams::{Failed, Source};
use pciplan_cli::opened::Opening;
use pciplan_cli::outside::Outside;
use pciplan_cli::program::program;
use std::alloc::AllocError;
use std::io;
use std::io::{ErrorKind, Read};
use std::test::Fail;
use test_support::example::{DUMP, LISTING, PROBE};

/// Texts by their paths, of which one is opened. While none is, it reads as if it were empty.
#[derive(Drop)]
pub struct Shelf<'a> {
    texts: &'a [(&'a str, &'a str)],
    rest: &'a [u8],
    failed: Failures,
}

impl<'a> Shelf<'a> {
    pub fn closed(texts: &'a [(&'a str, &'a str)]) -> Shelf<'a> {
        Shelf {
            texts,
            rest: &[],
            failed: Failures::new(),
        }
    }
}

impl Source for Shelf<'_> {
    ghost left = { λ _. None };

    ghost failures = { λ s. s.failed.count };

    fn read(&mut self, buf: &mut [u8]) -> Result<usize, Failed> {
        if let Ok(count) = self.rest.read(buf) {
            return Ok(count);
        }
        self.failed = self.failed.and_one();
        Err(Failed)
    }
}

impl Opening for Shelf<'_> {
    ghost stands = { λ _ _. Unit {0} };

    ghost bytes_at = { λ _ _. None };

    fn open(&mut self, path: &str) -> Result<(), Failed> {
        if let Some(entry) = self.texts.iter().find(|entry| entry.0 == path) {
            self.rest = entry.1.as_bytes();
            return Ok(());
        }
        self.failed = self.failed.and_one();
        Err(Failed)
    }
}

/// The words of a line.
fn words_of(rt: &impl AllocGlobal, words: &[&str]) -> Result<Vec<String>, AllocError> {
    let mut owned = Vec::new(rt.alloc());
    for word in words {
        owned.push(String::from_str(rt.alloc(), word)?)?;
    }
    Ok(owned)
}

/// What the program answers to words, where these texts can be opened.
fn answer(rt: &impl AllocGlobal, words: io::Result<Vec<String>>, texts: &[(&str, &str)]) -> Answer {
    let mut out = Vec::new(rt.alloc());
    let mut err = Vec::new(rt.alloc());
    let status = {
        let mut outside = Outside {
            dump: Shelf::closed(texts),
            second: Shelf::closed(texts),
            third: Shelf::closed(texts),
            machine: (),
            out: Outgoing::new(&mut out),
            err: Outgoing::new(&mut err),
        };
        program(rt.alloc(), words, &mut outside)
    };
    Answer { status, out, err }
}

/// Whether that is what is wanted on standard output and on standard error, and the status.
fn is_left(got: &Answer, out: &str, err: &str, status: u8) -> bool {
    got.out.as_slice() == out.as_bytes()
        && got.err.as_slice() == err.as_bytes()
        && got.status == status
}

/// Whether a command is refused so where these texts can be opened.
fn is_refused(
    rt: &impl AllocGlobal,
    command: &str,
    texts: &[(&str, &str)],
    err: &str,
    status: u8,
) -> Result<bool, AllocError> {
    let words = words_of(rt, &[command, "d", "p"])?;
    Ok(is_left(&answer(rt, Ok(words), texts), "", err, status))
}

#[test]
fn each_path_opens_its_own_text(rt: HostRuntime) -> Result<(), Fail> {
    let texts = [("p", PROBE), ("d", DUMP)];
    for (command, out) in [("check", "yes\n"), ("size", PROBE), ("show", LISTING)] {
        let words = words_of(&rt, &[command, "d", "p"])?;
        assert!(rt; is_left(&answer(&rt, Ok(words), &texts), out, "", 0));
    }
    Ok(())
}

#[test]
fn a_text_that_cant_be_opened_is_one_that_cant_be_read(rt: HostRuntime) -> Result<(), Fail> {
    let dump = "pciplan: dump: 1 Io\n";
    let probe = "pciplan: probe: 1 Io\n";
    for command in ["show", "check", "size"] {
        assert!(rt; is_refused(&rt, command, &[("p", PROBE)], dump, 4)?);
        assert!(rt; is_refused(&rt, command, &[("d", DUMP)], probe, 4)?);
        // the dump's goes first
        assert!(rt; is_refused(&rt, command, &[], dump, 4)?);
        // and so does a fault of its text
        let cut = "pciplan: dump: 9 Ended 1\n";
        assert!(rt; is_refused(&rt, command, &[("d", "00:01.0")], cut, 2)?);
    }
    Ok(())
}

#[test]
fn words_that_cant_be_had_are_refused(rt: HostRuntime) -> Result<(), Fail> {
    let texts = [("p", PROBE), ("d", DUMP)];
    for (kind, err, status) in [
        (ErrorKind::OutOfMemory, "pciplan: 2 Memory\n", 3),
        (ErrorKind::InvalidData, "pciplan: usage\n", 2),
    ] {
        let got = answer(&rt, Err(io::Error::from(kind)), &texts);
        assert!(rt; is_left(&got, "", err, status));
    }
    let got = answer(&rt, Ok(words_of(&rt, &["check", "d"])?), &texts);
    assert!(rt; is_left(&got, "", "pciplan: usage\n", 2));
    Ok(())
}

/// Whether a command with a third text is refused so where these texts can be opened.
fn is_refused_with(
    rt: &impl AllocGlobal,
    command: &str,
    texts: &[(&str, &str)],
    err: &str,
    status: u8,
) -> Result<bool, AllocError> {
    let words = words_of(rt, &[command, "d", "p", "--also", "t"])?;
    Ok(is_left(&answer(rt, Ok(words), texts), "", err, status))
}

#[test]
fn a_third_text_is_refused_behind_the_other_two(rt: HostRuntime) -> Result<(), Fail> {
    let also = "pciplan: also: 1 Io\n";
    let cut = "pciplan: also: 9 Ended 1\n";
    let probe = "pciplan: probe: 9 Ended 1\n";
    for command in ["faults", "map"] {
        let texts = [("d", DUMP), ("p", PROBE)];
        assert!(rt; is_refused_with(&rt, command, &texts, also, 4)?);
        let texts = [("d", DUMP), ("p", PROBE), ("t", "00:01.0")];
        assert!(rt; is_refused_with(&rt, command, &texts, cut, 2)?);
        // where the probe has a fault too, that one is told
        let texts = [("d", DUMP), ("p", "00:01.0"), ("t", "00:01.0")];
        assert!(rt; is_refused_with(&rt, command, &texts, probe, 2)?);
        let texts = [("d", DUMP), ("p", "00:01.0")];
        assert!(rt; is_refused_with(&rt, command, &texts, probe, 2)?);
    }
    Ok(())
}

#[test]
fn a_third_text_is_opened_by_its_path(rt: HostRuntime) -> Result<(), Fail> {
    let texts = [
        ("t", "00:01.0 io 00000000-0000000f held\n"),
        ("p", PROBE),
        ("d", DUMP),
    ];
    let words = words_of(&rt, &["map", "d", "p", "--also", "t"])?;
    let got = answer(&rt, Ok(words), &texts);
    assert!(rt; got.status == 0);
    assert!(rt; got.err.is_empty());
    Ok(())
}

/// The words of a settling beside what a third text tells.
const SETTLE: &[&str] = &[
    "settle", "d", "p", "--io", "none", "--mem", "none", "--pref", "none", "--also", "t",
];

#[test]
fn a_third_text_of_a_settling_is_refused_like_that(rt: HostRuntime) -> Result<(), Fail> {
    let texts = [("d", DUMP), ("p", PROBE), ("t", "00:01.0")];
    let got = answer(&rt, Ok(words_of(&rt, SETTLE)?), &texts);
    assert!(rt; is_left(&got, "", "pciplan: also: 9 Ended 1\n", 2));
    let got = answer(&rt, Ok(words_of(&rt, SETTLE)?), &texts[..2]);
    assert!(rt; is_left(&got, "", "pciplan: also: 1 Io\n", 4));
    Ok(())
}

/// The words of a settling in 4 MB where all is placed anew beside what a third text tells.
const SETTLE_ANEW: &[&str] = &[
    "settle",
    "d",
    "p",
    "--io",
    "none",
    "--mem",
    "fe000000-fe3fffff",
    "--pref",
    "none",
    "--anew",
    "--also",
    "t",
    "--writes",
];

/// The writes of that settling where somebody is at the beginning of the 4 MB.
const MOVED: &str = "00:02.0 04.2 0000
00:02.0 10.4 fe100008
00:02.0 04.2 0002
";

#[test]
fn all_is_placed_anew_beside_a_third_text(rt: HostRuntime) -> Result<(), Fail> {
    let held = "00:1f.0 mem 00000000fe000000-00000000fe000fff held\n";
    let texts = [("d", DUMP), ("p", PROBE), ("t", held)];
    let got = answer(&rt, Ok(words_of(&rt, SETTLE_ANEW)?), &texts);
    assert!(rt; is_left(&got, MOVED, "", 0));
    Ok(())
}

#[test]
fn a_third_text_of_that_is_refused_behind_the_other_two(rt: HostRuntime) -> Result<(), Fail> {
    let texts = [("d", DUMP), ("p", PROBE), ("t", "00:01.0")];
    let got = answer(&rt, Ok(words_of(&rt, SETTLE_ANEW)?), &texts);
    assert!(rt; is_left(&got, "", "pciplan: also: 9 Ended 1\n", 2));
    let got = answer(&rt, Ok(words_of(&rt, SETTLE_ANEW)?), &texts[..1]);
    assert!(rt; is_left(&got, "", "pciplan: probe: 1 Io\n", 4));
    Ok(())
}
