//! Runs over a list of steps, and the steps of one slot of a list.

ghost use Rattle.std.specs.Prelude.{◌≡◌, true, IfErr, IfOk};
ghost use Rattle.xt_base.specs.Isolation.{Tells};
ghost use Rattle.xt_base.specs.Order.{orderly};
ghost use Rattle.xt_base.specs.Steps.{strike};
ghost use Rattle.xt_base.specs.declared.steps.Errno.{Errno as AnErrno};
ghost use Rattle.xt_core.specs.Runs.{AreStruckOrderly, AreTurnsOf, GivesSame, IsBarred, IsFaultOf, IsNotOrderly, IsStruckBefore};

use crate::host::HostCore;
use std::alloc::{AllocError, Global};
use xt_base::names::Slot;
use xt_base::outcomes::{Outcomes, RunFault};
use xt_base::steps::{Errno, Step};

/// Copies of the steps that name a slot, in order. The one error is want of memory.
fn copies(alloc: Global, steps: &[Step], slot: Slot) -> Result<Vec<Step>, AllocError>
    ensures { IfOk result (λ struck. struck.items ≡ strike steps.now slot) }
{
    let mut struck = Vec::new(alloc);
    for step in steps {
        if step.slot() == slot {
            struck.push(step.copy(alloc)?)?;
        }
    }
    Ok(struck)
}

impl HostCore {
    /// Runs steps of any slots, from a new host on.
    ///
    /// For every slot of which no step was answered ENOMEM: its replies, what it offered to its log device and its home device,
    /// and why it is shut are those of the mount alone on its own steps, all others struck out; its steps are orderly by themselves; and a run
    /// of them alone tells it the same. Other slots may have been refused memory.
    ///
    /// `Disorder` at the first step that may not come after those before it, with its place from 0 and what those before it told,
    /// of which the same holds: where no slot was refused memory, exactly where the list is not orderly. Where other slots were, a step of
    /// a slot that was not is `Disorder` all the same only if it breaks order. `Memory` where the host, the room for what is told,
    /// or a copy of an offer found none; a step that finds none is no fault of the run, it has its turn, ENOMEM.
    pub fn run(alloc: Global, steps: &[Step]) -> Result<Outcomes, RunFault>
        ensures alone { IfOk result (λ outcomes. Tells steps.now outcomes) }
        ensures struck { IfOk result (λ outcomes. AreStruckOrderly steps.now outcomes) }
        ensures same { IfOk result (λ outcomes. GivesSame steps.now outcomes) }
        ensures turns { IfOk result (λ outcomes. AreTurnsOf steps.now outcomes) }
        ensures disorder { IfErr result (λ fault. IsFaultOf steps.now fault) }
        ensures before { IfErr result (λ fault. IsStruckBefore steps.now fault) }
        ensures unordered { IfErr result (λ fault. IsNotOrderly steps.now fault) }
        ensures order { IfErr result (λ fault. IsBarred steps.now fault) }
    {
        let Ok(mut outcomes) = Outcomes::new(alloc, steps.len()) else {
            return Err(RunFault::Memory);
        };
        let Ok(mut host) = HostCore::new(alloc) else {
            return Err(RunFault::Memory);
        };
        for (at, step) in steps.iter().enumerate() {
            if !host.can_take(step) {
                return Err(RunFault::Disorder {
                    at,
                    before: outcomes,
                });
            }
            let Ok(()) = host.advance(&mut outcomes, step) else {
                return Err(RunFault::Memory);
            };
        }
        Ok(outcomes)
    }

    /// The steps that name a slot, in order, copied. Of an orderly list they are orderly, and striking them once more changes
    /// nothing. The one error is ENOMEM.
    pub fn strike(alloc: Global, steps: &[Step], slot: Slot) -> Result<Vec<Step>, Errno>
        ensures list { IfOk result (λ struck. struck.items ≡ strike steps.now slot) }
        ensures orderly { orderly steps.now ≡ true → orderly (strike steps.now slot) ≡ true }
        ensures twice { strike (strike steps.now slot) slot ≡ strike steps.now slot }
        ensures memory { IfErr result (λ errno. errno ≡ AnErrno.NoMemory) }
    {
        match copies(alloc, steps, slot) {
            Ok(struck) => Ok(struck),
            Err(_) => Err(Errno::NoMemory),
        }
    }
}
