//! The entry of a call that loses nothing, by how often callers called and how many buffers were claimed.

ghost use Rattle.std.specs.Prelude.{◌≡◌, ◌<◌, ◌+◌, ◌∷◌, [], ℕ, List, Option, length, map, set, filter, count_by, nat_lt, slice_index, IfOk, OnOk};
ghost use Rattle.ids_types.specs.{act_by, plain_carried, plain_entry};
ghost use Rattle.ids_config.specs.Parts.{class_of};
ghost use Rattle.history_spec.specs.Names.{ClassSpec, EventIndex, Stamp};
ghost use Rattle.history_spec.specs.Rounds.{reports};
ghost use Rattle.trace_text.specs.Lines.{line_asked};
ghost use Rattle.gen_recording.specs.{AreClaims, AreCounts, HasClass, HasClassFor, Call, act_of, carried, entry_of};

use ids_config::Config;
use ids_types::{Act, Carried, Entry, NoMemory, Plain};
use std::alloc::Global;
use trace_text::{Line, TraceAct};

/// How many calls each caller made, and how many buffers of each class were claimed.
#[derive(Debug, Drop)]
pub(crate) struct Counts {
    pub(crate) calls: Vec<u64>,
    pub(crate) claims: Vec<u64>,
}

impl Counts {
    /// Before the first call.
    pub(crate) fn make(alloc: Global, config: &Config) -> Result<Counts, NoMemory>
        ensures { IfOk result (AreCounts config.now []) }
    {
        let parts = config.parts();
        Ok(Counts {
            calls: Vec::from_elem(alloc, 0, parts.callers as usize)?,
            claims: Vec::from_elem(alloc, 0, parts.classes.len())?,
        })
    }
}

/// The number at this place, which counts one more from now on.
fn count(numbers: &mut Vec<u64>, place: usize) -> Result<u64, NoMemory>
    requires { place < length numbers.old.items }
    ensures number { IfOk result (λ n. n ≡ slice_index numbers.old.items place) }
    ensures more { OnOk result (numbers.new.items
        ≡ set numbers.old.items place (slice_index numbers.old.items place + 1)) }
{
    let number = numbers[place];
    numbers[place] = number.checked_add(1).ok_or(NoMemory)?;
    Ok(number)
}

/// The entry of a caller's line, with the next numbers of its call and of the buffer that keeps its context.
pub(crate) fn make_entry<'t>(
    config: &Config,
    caller: u8,
    line: Line<'t>,
    counts: &mut Counts,
) -> Result<Entry<Plain<'t>>, NoMemory>
    requires caller { caller < length counts.old.calls.items }
    requires classes { length counts.old.claims.items ≡ length config.now.classes }
    requires class { HasClass config.now (line_asked line) }
    ensures entry { IfOk result (λ entry. (past : List Call) → AreCounts config.now past counts.old →
        plain_entry entry ≡ entry_of config.now past (record { caller = caller; asked = line_asked line.entry })) }
    ensures counts { OnOk result ((past : List Call) → AreCounts config.now past counts.old →
        AreCounts config.now (record { caller = caller; asked = line_asked line.entry } ∷ past) counts.new) }
{
    let call = count(&mut counts.calls, caller as usize)?;
    let act = make_act(config, line, &mut counts.claims)?;
    Ok(Entry { caller, call, act })
}

fn make_act<'t>(
    config: &Config,
    line: Line<'t>,
    claims: &mut Vec<u64>,
) -> Result<Act<Plain<'t>>, NoMemory>
    requires classes { length claims.old.items ≡ length config.now.classes }
    requires class { HasClass config.now (line_asked line) }
    ensures act { IfOk result (λ act. (past : List Call) → AreClaims config.now past claims.old.items →
        act_by (λ p. p.0.now) act ≡ act_of config.now past (line_asked line.entry)) }
    ensures claims { OnOk result ((past : List Call) (caller : ℕ) → AreClaims config.now past claims.old.items →
        AreClaims config.now (record { caller = caller; asked = line_asked line.entry } ∷ past) claims.new.items) }
{
    match line.act {
        TraceAct::Report {
            event,
            count,
            stamp,
            context,
        } => {
            let context = keep(config, context, claims)?;
            Ok(Act::Report {
                event,
                count,
                stamp,
                context,
            })
        }
        TraceAct::State(state) => Ok(Act::State(state)),
        TraceAct::SetMode { event, mode } => Ok(Act::SetMode { event, mode }),
    }
}

/// The context data in a buffer of the smallest class that fits.
fn keep<'t>(
    config: &Config,
    context: &'t [u8],
    claims: &mut Vec<u64>,
) -> Result<Carried<Plain<'t>>, NoMemory>
    requires classes { length claims.old.items ≡ length config.now.classes }
    requires class { HasClassFor config.now context.now }
    ensures carried { IfOk result (λ kept. (past : List Call) → AreClaims config.now past claims.old.items →
        plain_carried kept ≡ carried config.now past context.entry.now) }
    ensures claims { OnOk result ((past : List Call) (caller : ℕ) (event : EventIndex) (count : ℕ) (stamp : Option Stamp) →
        AreClaims config.now past claims.old.items →
        AreClaims config.now (record { caller = caller; asked = reports event count stamp context.entry.now } ∷ past) claims.new.items) }
{
    if context.is_empty() {
        return Ok(Carried::Absent);
    }
    let class = class_for(&config.parts().classes, context.len() as u64);
    let claim = count(claims, class)?;
    Ok(Carried::Kept {
        class: class as u8,
        claim,
        parcel: Plain(context),
    })
}

/// The smallest class that so many bytes fit: how many classes are too small.
fn class_for(classes: &[(u64, u64)], bytes: u64) -> usize
    ensures { result ≡ length (filter (λ (class : ClassSpec). nat_lt class.size bytes) (map class_of classes.now)) }
{
    too_small(classes, bytes)
}

fn too_small(classes: &[(u64, u64)], bytes: u64) -> usize
    ensures { result ≡ count_by (λ class. nat_lt class.0 bytes) classes.now }
{
    classes.iter().filter(|class| class.0 < bytes).count()
}
