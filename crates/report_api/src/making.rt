//! How everything that reports and takes is made, for one configuration.
ghost use Rattle.std.specs.Prelude.{◌≡◌, ◌≤◌, length, map, take, IfOk};
ghost use Rattle.buffer_classes.specs.Making.{AreSpecs, spec_sizes};
ghost use Rattle.ids_config.specs.Parts.{class_of};
ghost use Rattle.report_api.specs.Making.{IsNewMaking, IsOfConfig, as_passes};

use crate::desk::Desk;
use crate::pass::Pass;
use crate::shared::{Reports, Shared};
use crate::terms::ReportTerms;
use buffer_classes::{ClaimSeat, CtxBuf};
use ids_config::Config;
use ids_types::{Act, ClassSpec, NoMemory};
use report_queue::QueueSeat;
use std::alloc::{AllocError, Global};

/// What all share, the passes by their callers' numbers, and the desk.
#[derive(Drop)]
pub struct Parts {
    pub shared: Shared,
    pub passes: Vec<Pass>,
    pub desk: Desk,
}

// The classes to be made.
#[tactic(auto, using(crate::proofs::MakingLemmas::small_at))]
fn specs_of(alloc: Global, classes: &[(u64, u64)]) -> Result<Vec<ClassSpec>, AllocError>
    requires { AreSpecs (map class_of classes.now) }
    ensures { IfOk result (λ v. v.items ≡ map class_of classes.now) }
{
    let mut specs = Vec::with_capacity(alloc, classes.len())?;
    for class in classes {
        specs.push_reserved(ClassSpec {
            size: class.0 as u16,
            number: class.1 as u16,
        });
    }
    Ok(specs)
}

// Their sizes, after which are zeros.
fn sizes_of(specs: &[ClassSpec]) -> [u16; 4]
    requires { length specs.now ≤ 4 }
    ensures { take (length specs.now) result ≡ spec_sizes specs.now }
{
    let mut sizes = [0; 4];
    for (place, spec) in specs.iter().enumerate() {
        sizes[place] = spec.size;
    }
    sizes
}

// What is fixed for the calls, where these are the configuration's classes.
fn terms_of(config: &Config, specs: &[ClassSpec]) -> ReportTerms
    requires { specs.now ≡ config.now.classes }
    ensures { IsOfConfig config.now result }
{
    ReportTerms {
        events: config.parts().events.len() as u16,
        internal: config.internal(),
        classes: specs.len() as u8,
        sizes: sizes_of(specs),
    }
}

// Boxes for acts, so many.
fn boxes(alloc: Global, n: usize) -> Result<Vec<Box<Act<CtxBuf>>>, AllocError>
    ensures { IfOk result (λ v. length v.items ≡ n) }
{
    let mut boxes = Vec::with_capacity(alloc, n)?;
    for _ in 0..n {
        boxes.push_reserved(Box::new(alloc, Act::State(0))?);
    }
    Ok(boxes)
}

// A pass for each caller, with the claimant of its number and a box.
fn passes_of(
    alloc: Global,
    callers: Vec<QueueSeat<Reports>>,
    claimants: Vec<ClaimSeat>,
    spares: Vec<Box<Act<CtxBuf>>>,
) -> Result<Vec<Pass>, AllocError>
    ensures { IfOk result (λ v. v.items ≡ as_passes callers.items claimants.items spares.items) }
{
    callers
        .into_iter()
        .zip(claimants)
        .zip(spares)
        .map(|((seat, claimant), spare)| Pass {
            seat,
            claimant,
            spare: Some(spare),
        })
        .collect(alloc)
}

/// Makes what all share, a pass for each caller, and the desk: all buffers are free, and nothing was called yet.
/// It is the one call of this crate that takes memory.
/// Steps: the positions, the callers at the ring and at each class, and all buffers, each with a request. Memory: made
/// once. By: read off; `IsNewMaking`; no other call of this crate answers NoMemory.
pub fn make(alloc: Global, config: &Config) -> Result<Parts, NoMemory>
    ensures { IfOk result (λ made. IsNewMaking config.now made.shared made.passes.items made.desk) }
{
    let parts = config.parts();
    let callers = parts.callers as u8;
    let specs = specs_of(alloc, &parts.classes)?;
    let terms = terms_of(config, &specs);
    let spent = boxes(alloc, parts.ring as usize)?;
    let spares = boxes(alloc, callers as usize)?;
    let spare = Box::new(alloc, Act::State(0))?;
    let queue = report_queue::make::<Reports>(alloc, parts.ring as u16, callers, terms, spent)?;
    let classes = buffer_classes::make(alloc, &specs, callers)?;
    Ok(Parts {
        shared: Shared {
            queue: queue.queue,
            classes: classes.classes,
            terms,
        },
        passes: passes_of(alloc, queue.seats, classes.seats, spares)?,
        desk: Desk {
            taker: queue.taker,
            givers: classes.givers,
            spare: Some(spare),
        },
    })
}
