//! The list of faults above a picture.
ghost use Rattle.std.specs.Prelude.{◌≡◌, ◌≤◌, ◌<◌, ◌+◌, ◌-◌, ◌*◌, ◌^◌, [], Some, length, IfOk, OnOk};
ghost use Rattle.pci_picture.specs.Canvases.{AddsToCanvas, WritesBytes};
ghost use Rattle.pci_picture.specs.FaultLines.{fault_line, fault_list_text, faults_read, left_out_line, lines_of_reason, lines_within, list_text};
ghost use Rattle.pci_picture.specs.Labels.{label_text};
ghost use Rattle.pci_picture.specs.Said.{lines_of_fault};

use super::board::Board;
use super::canvas::{Canvas, Label};
use super::faults::Fault;
use super::heights::LINE;
use super::memory::OutOfMemory;
use super::tree::LEFT;
use super::words::Words;
use std::alloc::Allocator;

/// The base line above the first line of the list.
const ABOVE: u64 = 72;

/// How many lines of faults a picture has, at most.
const LINES: usize = 40;

/// Writes how many faults are left out.
fn write_left<A: Allocator + Copy>(
    alloc: A,
    canvas: &mut Canvas<A>,
    left: usize,
    y: u64,
) -> Result<(), OutOfMemory>
    ensures adds { OnOk result (AddsToCanvas [] canvas.old canvas.new) }
    ensures writes { OnOk result (WritesBytes (label_text (left_out_line left).left y (left_out_line left).class
        (left_out_line left).words) canvas.old canvas.new) }
{
    let mut words = Words::of(alloc, b"and ")?;
    words.put_number(alloc, left)?;
    words.put(b" more")?;
    let label = Label {
        x: LEFT,
        y,
        class: b"alarm bold",
    };
    canvas.add_words(label, words.bytes.as_slice())
}

/// How a line of a fault looks: its first line is red and bold, and further ones stand further in.
fn label_of(is_first: bool, y: u64) -> Label<'static>
    ensures left { result.x ≡ (fault_line is_first []).left }
    ensures base { result.y ≡ y }
    ensures class { result.class.now ≡ (fault_line is_first []).class }
{
    if is_first {
        Label {
            x: LEFT,
            y,
            class: b"alarm bold",
        }
    } else {
        Label {
            x: LEFT + 16,
            y,
            class: b"",
        }
    }
}

/// Writes the lines of a fault below a base line. Its answer is the base line of the last one.
fn write_fault<A: Allocator + Copy>(
    canvas: &mut Canvas<A>,
    board: &Board<'_, A>,
    fault: &Fault,
    above: u64,
) -> Result<u64, OutOfMemory>
    // so that no base line is cut off at 64 bits
    requires low { above + 14 * (fault.now.end - fault.now.begin) < 2 ^ 64 }
    requires within { fault.now.end ≤ length board.now.faults.lines.items }
    ensures adds { IfOk result (λ _. AddsToCanvas [] canvas.old canvas.new) }
    ensures below { IfOk result (λ y. y ≡ above + 14 * (fault.entry.now.end - fault.entry.now.begin)) }
    ensures writes { IfOk result (λ _. WritesBytes
        (list_text above (lines_of_reason (lines_of_fault board.entry.now.faults (Some fault.entry.now))))
        canvas.old canvas.new) }
{
    let mut y = above;
    for place in fault.begin..fault.end {
        y = y.saturating_add(LINE);
        let label = label_of(place == fault.begin, y);
        canvas.add_words(label, board.faults.line(place))?;
    }
    Ok(y)
}

/// Writes the faults, up to 40 lines. Its answer is the base line of the last line.
pub fn write_faults<A: Allocator + Copy>(
    alloc: A,
    canvas: &mut Canvas<A>,
    board: &Board<'_, A>,
) -> Result<u64, OutOfMemory>
    ensures adds { IfOk result (λ _. AddsToCanvas [] canvas.old canvas.new) }
    ensures writes { IfOk result (λ _. WritesBytes
        (fault_list_text (faults_read board.entry.now.faults)) canvas.old canvas.new) }
    ensures below { IfOk result (λ y. y ≡ 72 + 14 * length (lines_within 40 (faults_read board.entry.now.faults))) }
    ensures high { IfOk result (λ y. y ≤ 646) }
{
    let faults = board.faults.faults.as_slice();
    let mut y = ABOVE;
    let mut room = LINES;
    for index in 0..faults.len() {
        let fault = &faults[index];
        if room < fault.lines() {
            y = y.saturating_add(LINE);
            write_left(alloc, canvas, faults.len() - index, y)?;
            return Ok(y);
        }
        room -= fault.lines();
        y = write_fault(canvas, board, fault, y)?;
    }
    Ok(y)
}
