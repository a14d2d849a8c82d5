//! Parcels go back to their owner.

ghost use Rattle.std.specs.Prelude.{◌≡◌, ◌+◌, ◌≤◌, [], vec_len, vec_capacity};
ghost use Rattle.filter_chain.specs.Parcels.{HandsBack, all_parcels};

use filter_chain::{give_back, take_kept};
use ids_types::{Act, Entry, Parcel};

/// Hands the parcels of entries back, and leaves no entry.
pub(crate) fn hand_back<B: Parcel>(items: &mut Vec<Entry<B>>, back: &mut Vec<B>)
    requires { vec_len back.old + vec_len items.old ≤ vec_capacity back.old }
    ensures parcels { HandsBack (all_parcels items.old.items) [] [] back.old.items back.new.items }
    ensures items { items.new.items ≡ [] }
    ensures items_room { vec_capacity items.new ≡ vec_capacity items.old }
    ensures back_room { vec_capacity back.new ≡ vec_capacity back.old }
{
    for entry in items.drain(..) {
        if let Act::Report { mut context, .. } = entry.act {
            give_back(take_kept(&mut context), back);
        }
    }
}
