//! All callers of a replay.
ghost use Rattle.std.specs.Prelude.{◌≡◌, [], IfOk};
ghost use Rattle.trace_replay.specs.{losses_by, passes_of};

use crate::caller::Caller;
use ids_types::{Loss, NoMemory};
use report_api::Pass;
use std::alloc::Global;

/// A caller for each pass, which lost nothing yet.
pub(crate) fn callers_of(alloc: Global, passes: Vec<Pass>) -> Result<Vec<Caller>, NoMemory>
    ensures passes { IfOk result (λ callers. passes_of callers.items ≡ passes.items) }
    ensures losses { IfOk result (λ callers. losses_by callers.items ≡ []) }
{
    let mut callers = Vec::with_capacity(alloc, passes.len())?;
    for pass in passes {
        callers.push_reserved(Caller {
            pass,
            losses: Vec::new(alloc),
        });
    }
    Ok(callers)
}

/// The passes of all callers, and what they lost, caller by caller.
pub(crate) fn part(alloc: Global, callers: Vec<Caller>) -> Result<(Vec<Pass>, Vec<Loss>), NoMemory>
    ensures passes { IfOk result (λ parts. parts.0.items ≡ passes_of callers.items) }
    ensures losses { IfOk result (λ parts. parts.1.items ≡ losses_by callers.items) }
{
    let mut losses = Vec::new(alloc);
    for caller in &callers {
        losses.extend_from_slice(&caller.losses)?;
    }
    let passes = callers
        .into_iter()
        .map(|caller| caller.pass)
        .collect(alloc)?;
    Ok((passes, losses))
}
