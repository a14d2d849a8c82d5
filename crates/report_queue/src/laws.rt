//! What stays of a queue's end, as the contract of a function that does nothing.
ghost use Rattle.report_queue.specs.{OffersAll, AreAllBack, IsAllTaken, Item, KeeperMemo};

use crate::cargo::Cargo;

/// Giving back once more changes nothing of what was taken.
pub fn giving_back_keeps_what_was_taken<P: Cargo>(seats: u8, count: u16)
    ghost memo: { KeeperMemo (Item P.Note) × KeeperMemo (Item P.Note) }
    ensures back { OffersAll seats count memo.0 memo.1 → AreAllBack memo.0 → AreAllBack memo.1 }
    ensures taken { OffersAll seats count memo.0 memo.1 → IsAllTaken memo.0 → IsAllTaken memo.1 }
{}
