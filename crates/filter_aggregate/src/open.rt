//! One open window, and how an item joins it.

ghost use Rattle.std.specs.Prelude.{◌≡◌};
ghost use Rattle.filter_aggregate.specs.Slots.{kept_of, spare_of, with_item};

use ids_types::{Parcel, Qualified};

/// An open window.
#[derive(Debug, Drop)]
pub struct Open<B> {
    /// The tick of the item that opened it.
    pub since: u64,
    /// The one item that it gives if no other comes.
    pub item: Qualified<B>,
}

impl<B: Parcel> Open<B> {
    /// The item comes into the window. Gives back the parcel that the window does not keep.
    pub(crate) fn join(&mut self, last: bool, item: Qualified<B>) -> Option<B>
        ensures window { self.new ≡ with_item last item self.old }
        ensures back { result ≡ spare_of last self.old.item.context item.context }
    {
        self.item.count = self.item.count.saturating_add(item.count);
        keep_one(last, &mut self.item.context, item.context)
    }
}

/// Keeps the first parcel, or the last where that is asked. Gives back the one that is not kept.
fn keep_one<B: Parcel>(last: bool, kept: &mut Option<B>, came: Option<B>) -> Option<B>
    ensures kept { kept.new ≡ kept_of last kept.old came }
    ensures back { result ≡ spare_of last kept.old came }
{
    if !last && kept.is_some() {
        return came;
    }
    match came {
        Some(parcel) => kept.replace(parcel),
        None => None,
    }
}
