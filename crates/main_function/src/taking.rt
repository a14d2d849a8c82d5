//! What a turn takes from the desk.
ghost use Rattle.std.specs.Prelude.{◌≡◌, ◌≤◌, ◌^◌, [], length, vec_capacity};
ghost use Rattle.report_queue.specs.{AreAllBack, IsAllTaken, queue_positions};
ghost use Rattle.report_api.specs.Desks.{IsDeskOf, desk_memo, to_give_back};
ghost use Rattle.main_function.specs.Taking.{Took, item_of};

use ids_types::{Act, Entry};
use report_api::{CtxBuf, Desk, Item, Shared};

/// An item as an entry of the history.
fn entry_of(item: Item<Act<CtxBuf>>) -> Entry<CtxBuf>
    ensures { item_of result ≡ item }
{
    Entry {
        caller: item.caller,
        call: item.call,
        act: item.payload,
    }
}

/// Takes what is ready, up to an item that is not: at most as many items as there are event buffers, since the
/// positions of those that were taken are not free. It reads one mark for each, and one more. Once all passes are back it
/// takes all that is left.
#[tactic(auto, using(crate::proofs::TakingLemmas::took_one, crate::proofs::TakingLemmas::took_till))]
pub(crate) fn take_ready(desk: &mut Desk, shared: &Shared, items: &mut Vec<Entry<CtxBuf>>)
    requires mine { IsDeskOf shared.now desk.old }
    requires none { to_give_back desk.old ≡ 0 }
    requires within { length (desk_memo desk.old).notes ≤ 2 ^ 45 }
    requires empty { items.old.items ≡ [] }
    requires room { queue_positions shared.now.queue ≤ vec_capacity items.old }
    ensures mine { IsDeskOf shared.now desk.new }
    ensures took { Took shared.now.terms (queue_positions shared.now.queue) (desk_memo desk.old) items.new.items (desk_memo desk.new) }
    ensures counts { to_give_back desk.new ≡ length items.new.items }
    ensures within { length (desk_memo desk.new).notes ≤ 2 ^ 45 }
    ensures all_taken { AreAllBack (desk_memo desk.old) → IsAllTaken (desk_memo desk.new) }
    ensures same { desk.new.givers ≡ desk.old.givers }
    ensures room { vec_capacity items.new ≡ vec_capacity items.old }
{
    while let Ok(item) = desk.take(shared) {
        items.push_reserved(entry_of(item));
    }
}
