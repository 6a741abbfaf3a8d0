//! Writes a dump's text.
ghost use Rattle.std.specs.Prelude.{◌≡◌, ◌+◌, OnOk, OnErr};
ghost use Rattle.std.specs.Io.KnownBytes.{Appends};
ghost use Rattle.pci_dump.specs.Begun.{AppendsBeginning};
ghost use Rattle.pci_spec.specs.Text.{text_of, IsTextOf};

use super::block_text::{Text, put_block};
use super::dump::Dump;
use super::read_fault::WriteFault;
use super::streams::{Failed, Sink};
use std::alloc::Allocator;

/// Writes all of some bytes, or a beginning of them where a write fails.
pub fn write_all<K: Sink>(sink: &mut K, bytes: &[u8]) -> Result<(), Failed>
    ensures ok { OnOk result (Appends (K.taken sink.old) (K.taken sink.new) bytes.now) }
    ensures fine { OnOk result (K.failures sink.new ≡ K.failures sink.old) }
    // what went out can't be taken back, so all that is promised is that it is a beginning
    ensures begun { OnErr result
        (AppendsBeginning (K.taken sink.old) (K.taken sink.new) bytes.now) }
    ensures failed { OnErr result (K.failures sink.new ≡ K.failures sink.old + 1) }
{
    let mut rest = bytes;
    while !rest.is_empty() {
        let count = sink.write(rest)?;
        rest = &rest[count..];
    }
    Ok(())
}

/// Writes a dump's text.
///
/// Errors: 10 `Io` where a write failed. Then a beginning of the text went out.
pub fn write_dump<K: Sink, A: Allocator>(sink: &mut K, dump: &Dump<A>) -> Result<(), WriteFault>
    ensures ok { OnOk result (Appends (K.taken sink.old) (K.taken sink.new) (text_of dump.now)) }
    // what is written is a text that reads back as this dump
    ensures text { IsTextOf (text_of dump.now) dump.now }
    ensures fine { OnOk result (K.failures sink.new ≡ K.failures sink.old) }
    // what went out can't be taken back, so all that is promised is that it is a beginning
    ensures begun { OnErr result
        (AppendsBeginning (K.taken sink.old) (K.taken sink.new) (text_of dump.now)) }
    ensures failed { OnErr result (K.failures sink.new ≡ K.failures sink.old + 1) }
{
    let mut text = Text::new();
    for block in dump.blocks() {
        text.clear();
        put_block(&mut text, block);
        match write_all(sink, text.as_slice()) {
            Ok(()) => {}
            Err(Failed) => return Err(WriteFault::Io),
        }
    }
    Ok(())
}
