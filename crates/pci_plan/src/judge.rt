//! What follows from an access.
ghost use Rattle.std.specs.Prelude.{◌≡◌};
ghost use Rattle.pci_plan.specs.Steps.{judged};
ghost use Rattle.pci_plan.specs.Going.{code_step};

use super::apply_fault::ApplyFault;
use crate::step::{Kind, Step};

/// What follows from an access that showed a number, or failed: the next one is to be made, or it was the last one. The
/// number that a write shows is of no matter.
///
/// # Errors
///
/// 81 `Port` where the access failed, 80 `Changed` where a register that is compared shows another number, 82 `Stuck`
/// where a write reads back otherwise.
pub fn judge(step: &Step, shown: Option<u32>) -> Result<(), ApplyFault>
    ensures { result ≡ judged (code_step step.now) shown }
{
    let register = &step.register;
    let Some(shown) = shown else {
        return Err(ApplyFault::Port { done: step.done });
    };
    match step.kind {
        Kind::Compare if shown != register.value => {
            Err(ApplyFault::Changed(register.slot, register.off))
        }
        Kind::ReadBack if shown != register.value => Err(ApplyFault::Stuck { done: step.done }),
        _ => Ok(()),
    }
}
