//! What the rule of a running ring says between any two steps, as the contracts of functions that
//! do nothing.
ghost use Rattle.std.specs.Prelude.{◌≡◌, ◌+◌, ◌%◌, ◌<◌, ◌≤◌};
ghost use Rattle.permit_ring.specs.{ℕ, some, get_elem?, SeatMemo, Slot, Key, KeeperMemo, Sits, Lost, Got, HasOnePlace, IsOneSeats, IsMemoThere, IsInOrder, IsNotedAs, IsAdmittedSlot, ShowsRing, IsOrdered, RunningRing, StandsIn, HasFinished, HasOffered, IsOut, OfferTells, AreAllBack, IsAllReaped, IsSettled, AreCounted, AreInOrder, tickets_got, by_seat, by_keeper, seat_at, Holds, true, false, Move, finds_none, finds_unready, state_before, HasGivenBack, left_and_since, AllTakenOrHeld};

use crate::freight::Freight;

/// The words of a ring are those of a state of the ring machine, to which the moves of its seats and its keeper led
/// from the opening state. All holds of it that holds of every ring.
pub fn words_show_the_machine<F: Freight>()
    ghost r: { RunningRing F.note F.admits_offered F.admits_note }
    ensures { ShowsRing r.key r.table.words r.rule.moves r.rule.machine }
{}

/// A seat's memo, where the seat sits or as it came back, shows the seat of the machine's state.
pub fn each_memo_shows_its_seat<F: Freight>()
    ghost r: { RunningRing F.note F.admits_offered F.admits_note }
    ensures { (memo : SeatMemo F.Note) → IsMemoThere r.table.views memo → memo.view ≡ seat_at r.rule.machine.seats memo.number }
{}

/// The moves of a memo are its own among all, in their order.
pub fn each_memo_has_its_moves<F: Freight>()
    ghost r: { RunningRing F.note F.admits_offered F.admits_note }
    ensures seats { (memo : SeatMemo F.Note) → IsMemoThere r.table.views memo → memo.moves ≡ by_seat memo.number r.rule.moves }
    ensures keeper { r.rule.keeper.moves ≡ by_keeper r.rule.moves }
{}

/// Ticket t is that of the t-th claim that found a position free, counted from 0 in the order of all moves, whoever
/// made them. So of two claims the later one has the greater ticket.
pub fn tickets_are_in_the_order_of_claims<F: Freight>()
    ghost r: { RunningRing F.note F.admits_offered F.admits_note }
    ensures counted { AreCounted r.key.limit r.rule.moves }
    ensures all { r.rule.machine.word.claimed ≡ tickets_got r.key.limit r.rule.moves }
    ensures order { AreInOrder r.key.limit r.rule.moves }
{}

/// Each ticket that was claimed is held by one live seat, or stands in one log, there once.
pub fn each_ticket_has_one_place<F: Freight>(ticket: u64)
    ghost r: { RunningRing F.note F.admits_offered F.admits_note }
    ensures { ticket < r.rule.machine.word.claimed → HasOnePlace r.table.views ticket }
{}

/// A ticket that stands in a log was claimed.
pub fn logged_tickets_are_claimed<F: Freight>()
    ghost r: { RunningRing F.note F.admits_offered F.admits_note }
    ensures { (memo : SeatMemo F.Note) → IsMemoThere r.table.views memo → (j t : ℕ) (x : F.Note) → get_elem? memo.log j ≡ some (Got t x) → t < r.rule.machine.word.claimed }
{}

/// The view of a seat stands at one port.
pub fn each_seat_has_one_port<F: Freight>()
    ghost r: { RunningRing F.note F.admits_offered F.admits_note }
    ensures { (p q : ℕ) (key its : Key F.Terms) (a b : SeatMemo F.Note) → get_elem? r.table.views p ≡ some (Sits key a) → get_elem? r.table.views q ≡ some (Sits its b) → a.number ≡ b.number → p ≡ q }
{}

/// What the slot of a ticket holds, by what became of the ticket. It is the finished value until it is reaped, and
/// nothing while a seat or the keeper has it. It is what was offered until it is claimed.
pub fn slots_follow_their_tickets<F: Freight>(ticket: u64)
    ghost r: { RunningRing F.note F.admits_offered F.admits_note }
    ensures finished { (memo : SeatMemo F.Note) → IsMemoThere r.table.views memo → (j : ℕ) (x : F.Note) → get_elem? memo.log j ≡ some (Got ticket x) → r.rule.machine.reaped ≤ ticket → HasFinished (get_elem? r.table.homes (ticket % r.key.positions)) F.note x }
    ensures held { (memo : SeatMemo F.Note) → IsMemoThere r.table.views memo → Holds memo.view ticket → IsOut (get_elem? r.table.homes (ticket % r.key.positions)) }
    ensures offered { r.rule.machine.word.claimed ≤ ticket → ticket < r.rule.machine.offered → HasOffered (get_elem? r.table.homes (ticket % r.key.positions)) (F.admits_offered r.key.terms) }
    ensures vacant { r.rule.machine.offered ≤ ticket → ticket < r.rule.machine.reaped + r.key.positions → IsOut (get_elem? r.table.homes (ticket % r.key.positions)) }
{}

/// What is settled is all reaped, so that no later reap answers `Ok`.
#[tactic(auto, using(crate::proofs::Settled::settled_is_reaped))]
pub fn what_is_settled_is_reaped<F: Freight>()
    ghost k: { KeeperMemo F.Note }
    ensures { IsSettled k → IsAllReaped k }
{}

/// One offer more changes nothing of what was settled.
#[tactic(auto, using(crate::proofs::Settled::offer_keeps_back, crate::proofs::Settled::offer_keeps_reaped))]
pub fn an_offer_keeps_what_is_settled<F: Freight>(seats: u8, count: u16, tries: u16)
    ghost k: { KeeperMemo F.Note × KeeperMemo F.Note }
    ensures back { OfferTells seats count k.0 tries k.1 → AreAllBack k.0 → AreAllBack k.1 }
    ensures reaped { OfferTells seats count k.0 tries k.1 → IsAllReaped k.0 → IsAllReaped k.1 }
    ensures settled { OfferTells seats count k.0 tries k.1 → IsSettled k.0 → IsSettled k.1 }
{}

/// The t-th note of the keeper is that of ticket t in its log.
pub fn each_note_is_its_tickets<F: Freight>(ticket: u64)
    ghost r: { RunningRing F.note F.admits_offered F.admits_note }
    ensures { (x : F.Note) → get_elem? r.rule.keeper.notes ticket ≡ some x → IsNotedAs r.table.views ticket x }
{}

/// In each log no call stands before the end of one that was decided before it. Tickets rise, and lost numbers don't
/// fall. A lost number is above each ticket before it and not above one after it.
pub fn logs_are_in_order<F: Freight>()
    ghost r: { RunningRing F.note F.admits_offered F.admits_note }
    ensures { (memo : SeatMemo F.Note) → IsMemoThere r.table.views memo → IsInOrder r.rule.machine.word.claimed memo.log }
{}

/// Each value in a slot that nobody has in hand is admitted under the ring's terms.
pub fn values_at_home_are_admitted<F: Freight>(position: u16)
    ghost r: { RunningRing F.note F.admits_offered F.admits_note }
    ensures { (x : Slot F.Offered F.Finished) → get_elem? r.table.homes position ≡ some (some x) → IsAdmittedSlot F.note F.admits_offered F.admits_note r.key.terms x }
{}

/// A seat's calls are those of its log, and one more while it claims or holds a ticket, which is
/// above all tickets of the log and not below its lost numbers.
pub fn calls_are_decided_or_open<F: Freight>()
    ghost r: { RunningRing F.note F.admits_offered F.admits_note }
    ensures { (memo : SeatMemo F.Note) → IsMemoThere r.table.views memo → IsOrdered memo }
{}

/// A call was lost only where all positions that had been offered were claimed: its number is one
/// of the keeper's fronts.
pub fn each_loss_is_at_a_front<F: Freight>()
    ghost r: { RunningRing F.note F.admits_offered F.admits_note }
    ensures { (memo : SeatMemo F.Note) → IsMemoThere r.table.views memo → (j g : ℕ) → get_elem? memo.log j ≡ some (Lost g) → StandsIn r.rule.keeper.fronts g }
{}

/// Each seat that was made has one memo: where it sits, or with which it came back.
pub fn each_number_is_one_seats<F: Freight>(seat: u8)
    ghost r: { RunningRing F.note F.admits_offered F.admits_note }
    ensures { seat < r.rule.keeper.made → IsOneSeats r.table.views seat }
{}

/// Each note of a log, and each of the keeper, is admitted under the ring's terms.
pub fn notes_are_admitted<F: Freight>()
    ghost r: { RunningRing F.note F.admits_offered F.admits_note }
    ensures logs { (memo : SeatMemo F.Note) → IsMemoThere r.table.views memo → (j t : ℕ) (x : F.Note) → get_elem? memo.log j ≡ some (Got t x) → F.admits_note r.key.terms x }
    ensures keeper { (t : ℕ) (x : F.Note) → get_elem? r.rule.keeper.notes t ≡ some x → F.admits_note r.key.terms x }
{}

/// A call is lost only where the tickets that were left at move z, and those that were claimed since, are as many as the
/// positions. Where they are fewer, no look and no claim finds none free. It holds from any move z on, if before p all that
/// was taken before z had been offered again, and no more. So for z take the last read of a mark of the last turn that
/// gave back before p. Before the first such turn take 0, where nothing was left.
pub fn what_a_lost_call_means<F: Freight>()
    ghost r: { RunningRing F.note F.admits_offered F.admits_note }
    ensures lost { (z p : ℕ) (call : Move) → z ≤ p → get_elem? r.rule.moves p ≡ some call → HasGivenBack r.key r.rule.moves z p → finds_none r.key.limit call ≡ true → left_and_since r.key r.rule.moves z p ≡ r.key.positions }
    ensures none { (z p : ℕ) (call : Move) → z ≤ p → get_elem? r.rule.moves p ≡ some call → HasGivenBack r.key r.rule.moves z p → left_and_since r.key r.rule.moves z p < r.key.positions → finds_none r.key.limit call ≡ false }
{}

/// Where a read of a mark took nothing, all claimed tickets had been taken, or a seat held the next one. Each other
/// ticket that was left then is greater. So what was finished before the last read of a turn was taken by then, unless a
/// lesser ticket was not finished.
pub fn what_a_turn_leaves<F: Freight>()
    ghost r: { RunningRing F.note F.admits_offered F.admits_note }
    ensures { (z : ℕ) (see : Move) → get_elem? r.rule.moves z ≡ some see → finds_unready (state_before r.key r.rule.moves z) see ≡ true → AllTakenOrHeld (state_before r.key r.rule.moves z) }
{}
