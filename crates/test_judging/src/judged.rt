//! The lines of all faults of judging of a board, with what is given.
use pci_base::range::RootRange;
use pci_claims::given::Given;
use pci_claims::told::Told;
use pci_claims::vga::legacy_bridges;
use pci_dump::dump::Dump;
use pci_dump::reader::read_dump;
use pci_dump::std_streams::Incoming;
use pci_faults::all_lines::all_of_judging;
use pci_faults::any_fault::AnyFault;
use pci_model::bytes::set_vga_aside;
use pci_model::words::VgaWord;
use pci_tree::admit::admit_with;
use pci_tree::roots::Roots;
use std::alloc::Global;
use test_support::board::Texts;
use test_support::row::{Row, texts_of_rows};

/// What a test gives beside a board.
#[derive(Clone, Copy)]
pub struct Said<'a> {
    pub vga: Option<VgaWord>,
    pub io: Option<&'a [RootRange]>,
    pub memory: Option<&'a [RootRange]>,
}

/// Nothing.
pub const NOTHING: Said<'static> = Said {
    vga: None,
    io: None,
    memory: None,
};

/// A dump whose bridges have no VGA Enable.
fn without_vga(alloc: Global, dump: &Dump) -> Option<Dump> {
    let mut out = Dump::empty(alloc);
    for block in dump.blocks() {
        let mut block = block.copy();
        set_vga_aside(&mut block.image);
        out.push(block).ok()?;
    }
    Some(out)
}

/// All faults of judging of a dump and its probe, with what is said.
fn faults_of(
    alloc: Global,
    read: Dump,
    probe: Dump,
    roots: Roots,
    said: Said<'_>,
) -> Option<Vec<AnyFault>> {
    let (dump, legacy) = match said.vga {
        None => (read, Vec::new(alloc)),
        Some(word) => (
            without_vga(alloc, &read)?,
            legacy_bridges(alloc, &read, word).ok()?,
        ),
    };
    let admitted = admit_with(alloc, dump, probe, roots).ok()?;
    let given = Given {
        io: said.io,
        memory: said.memory,
        legacy: &legacy,
        isa: &[],
        palette: &[],
        unclaimed: &[],
    };
    let told = Told {
        ranges: &[],
        asleep: &[],
    };
    all_of_judging(alloc, &given, &told, admitted.outline()).ok()
}

/// The lines of faults.
fn lines(alloc: Global, faults: &[AnyFault]) -> Option<String> {
    let mut lines = String::new(alloc);
    for fault in faults {
        writeln!(lines, "{fault}").ok()?;
    }
    Some(lines)
}

/// The lines of all faults of judging.
fn lines_of(alloc: Global, texts: &Texts, roots: Roots, said: Said<'_>) -> Option<String> {
    let read = read_dump(alloc, &mut Incoming::new(texts.dump.as_bytes())).ok()?;
    let probe = read_dump(alloc, &mut Incoming::new(texts.probe.as_bytes())).ok()?;
    let faults = faults_of(alloc, read, probe, roots, said)?;
    lines(alloc, &faults)
}

/// Whether all faults of judging of a board, with what is said, have these lines.
pub fn has_lines(alloc: Global, board: &[Row], roots: &[u8], said: Said<'_>, wanted: &str) -> bool {
    match (texts_of_rows(alloc, board), Roots::of(roots)) {
        (Ok(texts), Some(roots)) => match lines_of(alloc, &texts, roots, said) {
            Some(lines) => lines.as_str() == wanted,
            None => false,
        },
        _ => false,
    }
}
