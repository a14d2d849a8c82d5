//! Parcels of context data, on their way out of entries and back.

ghost use Rattle.std.specs.Prelude.{◌≡◌, ◌≤◌, ◌+◌, ◌++◌, length, option_to_list, vec_len, vec_capacity};
ghost use Rattle.ids_types.specs.declared.entry.Carried.TheVariants.{Absent};
ghost use Rattle.ids_types.specs.{act_by, carried_by, entry_by, plain_carried, plain_entry};
ghost use Rattle.chain_spec.specs.Items.{kept_parcel};

use ids_types::{Act, Carried, Entry, Numbers, Parcel, Plain};
use std::mem::replace;

/// The entry, with its context data lent.
/// Steps: constant; at most 4 numbers are copied. By: type `Numbers`; the context is lent.
#[inline(always)]
pub fn lent<B: Parcel>(entry: &Entry<B>) -> Entry<Plain<'_>>
    ensures { plain_entry result ≡ entry_by B.held entry.now }
{
    Entry {
        caller: entry.caller,
        call: entry.call,
        act: lent_act(&entry.act),
    }
}

#[inline(always)]
fn lent_act<B: Parcel>(act: &Act<B>) -> Act<Plain<'_>>
    ensures { act_by (λ p. p.0.now) result ≡ act_by B.held act.now }
{
    match act {
        Act::Report {
            event,
            count,
            stamp,
            context,
        } => Act::Report {
            event: *event,
            count: *count,
            stamp: *stamp,
            context: lent_context(context),
        },
        Act::State(state) => Act::State(*state),
        Act::SetMode { event, mode } => Act::SetMode {
            event: *event,
            mode: *mode,
        },
    }
}

#[inline(always)]
fn lent_context<B: Parcel>(context: &Carried<B>) -> Carried<Plain<'_>>
    ensures { plain_carried result ≡ carried_by B.held context.now }
{
    match context {
        Carried::Absent => Carried::Absent,
        Carried::Kept {
            class,
            claim,
            parcel,
        } => Carried::Kept {
            class: *class,
            claim: *claim,
            parcel: Plain(parcel.bytes()),
        },
        Carried::Missing(numbers) => Carried::Missing(once_more(numbers)),
    }
}

// The numbers that few entries have, copied in a function of its own: the others have no room for them.
#[inline(never)]
fn once_more(numbers: &Numbers) -> Numbers
    ensures { result ≡ numbers.now }
{
    numbers.again()
}

/// Takes the parcel of a report's context data out, where they are kept.
/// By: no loop; the parcel is moved.
#[inline(always)]
pub fn take_kept<B: Parcel>(context: &mut Carried<B>) -> Option<B>
    ensures took { result ≡ kept_parcel context.old }
    ensures left { context.new ≡ Absent }
{
    match replace(context, Carried::Absent) {
        Carried::Kept { parcel, .. } => Some(parcel),
        Carried::Absent | Carried::Missing(_) => None,
    }
}

/// Hands a parcel back, if there is one.
/// By: no loop; condition: room for it.
pub fn give_back<B: Parcel>(parcel: Option<B>, back: &mut Vec<B>)
    requires { vec_len back.old + length (option_to_list parcel) ≤ vec_capacity back.old }
    ensures items { back.new.items ≡ back.old.items ++ option_to_list parcel }
    ensures capacity { vec_capacity back.new ≡ vec_capacity back.old }
{
    match parcel {
        Some(parcel) => back.push_reserved(parcel),
        None => {}
    }
}
