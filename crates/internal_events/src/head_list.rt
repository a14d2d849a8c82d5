//! The internal events of one turn.

ghost use Rattle.std.specs.Prelude.{◌≡◌, length, map, option_map, option_to_list};
ghost use Rattle.std.specs.List.{slice_get};
ghost use Rattle.chain_spec.specs.Heads.{head_for, heads_of};
ghost use Rattle.internal_events.specs.HeadView.{head_told};

use ids_types::{EventIndex, INTERNALS, Internal, TurnHead};
use std::marker::Model;

/// An internal event, with the count that it tells.
#[derive(Clone, Copy, Debug, PartialEq, Eq)]
pub struct Head {
    pub event: EventIndex,
    pub count: u16,
}

/// The internal events of a turn in their order, at most three.
#[derive(Debug, Drop)]
pub struct HeadList {
    heads: [Option<Head>; INTERNALS],
}

impl Model for HeadList {
    ghost use Rattle.std.specs.Prelude.{List};
    ghost use Rattle.internal_events.specs.declared.head_list.Head.{Head};

    ghost Value = { List Head };

    ghost use Rattle.internal_events.specs.ListView.{list_of};

    ghost view = { list_of };
}

impl HeadList {
    /// How many there are.
    /// Steps: 3 places. By: type `[Option<Head>; INTERNALS]`.
    pub fn len(&self) -> usize
        ensures { result ≡ length self.now }
    {
        self.heads.iter().filter_map(|head| *head).count()
    }

    /// The one at this place, from 0.
    /// Steps: 3 places. By: type `[Option<Head>; INTERNALS]`.
    pub fn get(&self, i: usize) -> Option<Head>
        ensures { result ≡ slice_get self.now i }
    {
        self.heads.iter().filter_map(|head| *head).nth(i)
    }
}

/// The internal events of a turn: for lost events, then for lost contexts, then for what the limits held
/// back, each where it is configured and its number is above 0.
pub fn heads(internal: &Internal, head: &TurnHead) -> HeadList
    ensures { map head_told result ≡ heads_of internal.now head.now }
{
    HeadList {
        heads: [
            head_for(internal.lost_events, head.lost_events),
            head_for(internal.lost_contexts, head.lost_contexts),
            head_for(internal.limited, head.limited),
        ],
    }
}

fn head_for(event: Option<EventIndex>, number: u64) -> Option<Head>
    ensures { option_to_list (option_map head_told result) ≡ head_for event number }
{
    let event = event?;
    (number > 0).then_some(Head {
        event,
        count: u16::try_from(number).unwrap_or(u16::MAX),
    })
}
