//! The open windows of bridges by which BARs have their class.
ghost use Rattle.std.specs.Prelude.{◌≡◌, IsFalse};
ghost use Rattle.pci_spec.specs.System.{System};
ghost use Rattle.settle_spec.specs.Lists.{Request};
ghost use Rattle.pci_first_fit.specs.Over.{AreOpenOver};
ghost use Rattle.pci_kept.specs.Boards.{IsTree};

use pci_base::slot::BUSES;
use pci_base::window_kind::WindowKind;
use pci_first_fit::over::{OpenWindows, open_range};
use pci_function::record::Record;

/// The open windows over each bus.
fn all_open(records: &[Record]) -> [OpenWindows; BUSES]
    ensures { (q : Request) → (s : System) → IsTree q s records.now → IsFalse q.anew → AreOpenOver q s result }
{
    let mut over = [OpenWindows::NONE; BUSES];
    for record in records {
        if let Some(bridge) = &record.bridge {
            over[bridge.secondary as usize] = OpenWindows {
                memory: open_range(&bridge.windows, WindowKind::Memory),
                prefetch: open_range(&bridge.windows, WindowKind::Prefetchable),
            };
        }
    }
    over
}

/// The open windows over each bus that tell the classes of the BARs there: none where all is placed anew.
pub fn open_windows(records: &[Record], anew: bool) -> [OpenWindows; BUSES]
    ensures { (q : Request) → (s : System) → IsTree q s records.now → q.anew ≡ anew → AreOpenOver q s result }
{
    if anew {
        [OpenWindows::NONE; BUSES]
    } else {
        all_open(records)
    }
}
