//! The manager.
ghost use Rattle.std.specs.Prelude.{◌≡◌, ◌+◌, ◌-◌, ◌≤◌, ◌<◌, ◌^◌, [], List, length, map, min, reverse, vec_capacity, IfOk, IsOk, OnErr, OnOk};
ghost use Rattle.ids_types.specs.{room_of, Turn};
ghost use Rattle.ids_config.specs.Parts.{Parts};
ghost use Rattle.filter_chain.specs.History.{count_of, rows_of};
ghost use Rattle.buffer_classes.specs.Givers.{givers_of, late_of};
ghost use Rattle.buffer_classes.specs.{AllOf};
ghost use Rattle.main_function.specs.{AreCountsOf, AreSumsOf, held_of, CloseLeaves, Closed, AreAllPasses, HasPasses, IsManager, IsManagerOf, Stands, StaysSo, last_of, rests_of, turns_of, without_log, calls_by, rests_told, with_rest, HasRestRoom, KeepsRestRoom, IsQuick, TurnFails, TurnLeaves, Turned, Rested, RestLeaves, memos_of};
ghost use Rattle.report_queue.specs.{AreAllBack, AreAllSwept, IsAllTaken};
ghost use Rattle.report_api.specs.{EachSettled, desk_memo, pass_memo};

use crate::closing::welcome_all;
use crate::rest::{HasPass, RestLog, Sent, Totals, TurnFault};
use crate::resting::{hold_all, release_all};
use crate::taking::take_ready;
use event_memory::Memory;
use filter_chain::{Log, ParcelChain, Unlogged};
use ids_types::{Entry, NoMemory, TurnHead, TurnOut};
use report_api::{CtxBuf, Desk, Pass, Shared};

/// Takes what callers reported, a turn at a time, shows the turn to its log, and has its chain judge it.
///
/// Contracts say for which turns it stands (`Stands`), and of which making it is (`IsManagerOf`).
#[derive(Drop)]
pub struct Manager<C, L = Unlogged> {
    pub(crate) desk: Desk,
    pub(crate) chain: C,
    pub(crate) log: L,
    // What a turn takes, and the buffers that come back from it: both empty between two calls.
    pub(crate) items: Vec<Entry<CtxBuf>>,
    pub(crate) back: Vec<CtxBuf>,
    pub(crate) out: TurnOut,
    pub(crate) rests: RestLog,
    pub(crate) totals: Totals,
    pub(crate) sent: Sent,
    // The head of the last turn, all 0 before the first, and how many entries it had.
    pub(crate) head: TurnHead,
    pub(crate) taken: u64,
    pub(crate) turns: u64,
    // How many event buffers there are.
    pub(crate) positions: u64,
    // How many bytes a buffer of the largest class can hold.
    pub(crate) largest: u64,
}

/// The largest tick.
const MAX_TICK: u64 = 1 << 62;

impl<C: ParcelChain<CtxBuf>, L: Log<CtxBuf>> Manager<C, L> {
    ghost use Rattle.std.specs.Borrow.{sem};
    ghost use Rattle.std.specs.Io.BufRead.{Rests};
    ghost use Rattle.main_function.specs.contracts.manager.Manager.{the_row};

    /// Makes a turn: what was lost since the turn before is swept, the items that are ready are taken, up to as many
    /// as there are event buffers, the chain judges them, and all buffers that nothing holds are given back. Its
    /// output is lent. A refusal makes no step and changes nothing. It takes no memory, and the number of its steps is
    /// bounded by the numbers of the configuration, whatever the callers do (`IsQuick`).
    /// Steps: two swaps; at most positions items taken, and one load more; one `Log::note`; one `Chain::judge`; one `Desk::give_back`;
    /// none of these where it is refused. At the report ring at most positions + callers + 4 steps, at a class at
    /// most buffers + callers + 2. Waits: as its chain and its log;
    /// `EventChain`: no. By: `fault`, `after_borrow` (`TurnLeaves`: `IsQuick` has the bounds, `MakesTurn` the steps in their order, `KeepsRoom` that no memory is
    /// taken); answer `TurnFault`, no NoMemory.
    pub fn turn(&mut self, shared: &Shared, tick: u64) -> Result<&TurnOut, TurnFault>
        requires mine { IsManagerOf C.events C.kept shared.now self.old }
        requires few { turns_of self.old < 2 ^ 62 }
        ensures fault { TurnFails (last_of self.old) tick result }
        ensures room { IfOk result (λ out. room_of out.now ≡ room_of self.old.out) }
        // Once the output is given back, all holds that the turn leaves.
        ensures* after_borrow { sem 𝓛 (Rests (the_row C.row L.row) self.entry (λ new.
            TurnLeaves C.stands L.noted C.events C.kept shared.now tick self.old result new)) }
    {
        self.check(tick)?;
        self.step(shared, tick);
        Ok(&self.out)
    }

    /// Makes a turn at a rest, as `turn` does, while all passes are held. So it takes all that was accepted and is not
    /// taken yet, and all that the close tells of all calls holds of those so far. Then the passes go on, and each later
    /// call that finds no event buffer free saw all offered that this turn gave back. A refusal changes nothing. It takes
    /// no memory.
    /// Steps: for each pass, at most 32, a `Desk::hold` and a `Desk::release`; between them as `Manager::turn`. Waits: as
    /// its chain; `EventChain`: no. By: `fault`, `passes`, `after_borrow` (`RestLeaves`: `Rested`, `IsQuick`); answer
    /// `TurnFault`, no NoMemory.
    pub fn turn_at_rest<P: HasPass>(
        &mut self,
        shared: &Shared,
        passes: &mut [P],
        tick: u64,
    ) -> Result<&TurnOut, TurnFault>
        requires mine { IsManagerOf C.events C.kept shared.now self.old }
        requires few { turns_of self.old < 2 ^ 62 }
        requires passes { AreAllPasses shared.now (desk_memo self.old.desk) (map P.its passes.old) }
        ensures fault { TurnFails (last_of self.old) tick result }
        ensures passes { AreAllPasses shared.now (desk_memo self.old.desk) (map P.its passes.new) }
        ensures stays { OnOk result (AllOf (λ i. P.stays) passes.old passes.new) }
        ensures err { OnErr result (passes.new ≡ passes.old) }
        // Once the output is given back, all holds that the turn leaves.
        ensures* after_borrow { sem 𝓛 (Rests (the_row C.row L.row) self.entry (λ new.
            RestLeaves C.stands L.noted C.events C.kept shared.now tick (memos_of P.its passes.old) (memos_of P.its passes.new) self.old result new)) }
    {
        self.check(tick)?;
        self.step_at_rest(shared, passes, tick);
        Ok(&self.out)
    }

    // Makes a turn of a tick that may be, while all passes are held.
    fn step_at_rest<P: HasPass>(&mut self, shared: &Shared, passes: &mut [P], tick: u64)
        requires mine { IsManagerOf C.events C.kept shared.now self.old }
        requires few { turns_of self.old < 2 ^ 62 }
        requires later { last_of self.old ≤ tick }
        requires within { tick ≤ 2 ^ 62 }
        requires passes { AreAllPasses shared.now (desk_memo self.old.desk) (map P.its passes.old) }
        ensures mine { IsManagerOf C.events C.kept shared.now self.new }
        ensures rested { Rested C.stands L.noted C.kept shared.now tick (memos_of P.its passes.old) (memos_of P.its passes.new) self.old self.new }
        ensures quick { IsQuick shared.now (length passes.old + length passes.old) self.old.desk self.new.desk }
        ensures passes { AreAllPasses shared.now (desk_memo self.old.desk) (map P.its passes.new) }
        ensures stays { AllOf (λ i. P.stays) passes.old passes.new }
    {
        hold_all(&mut self.desk, shared, passes);
        self.step(shared, tick);
        release_all(&mut self.desk, shared, passes);
    }

    /// Closes the manager: all passes come back, and a last turn of this tick takes all that was accepted and is not
    /// taken yet. It answers the turn's output, lent, and what all turns took and lost. A refusal is that of a turn,
    /// and leaves the passes in place. It takes no memory.
    /// Steps: for each pass, at most 32, a `Desk::welcome`; and then as `Manager::turn`. Memory: none; the passes'
    /// lists are given back. Waits: as its chain; `EventChain`: no. By: `fault`, `ok`, `room`, `after_borrow`
    /// (`CloseLeaves`: `IsQuick`, `Turned`); answer `TurnFault`, no NoMemory.
    pub fn close(
        &mut self,
        shared: &Shared,
        passes: &mut Vec<Pass>,
        tick: u64,
    ) -> Result<(&TurnOut, Totals), TurnFault>
        requires mine { IsManagerOf C.events C.kept shared.now self.old }
        requires few { turns_of self.old < 2 ^ 62 }
        requires passes { AreAllPasses shared.now (desk_memo self.old.desk) passes.old.items }
        ensures fault { TurnFails (last_of self.old) tick result }
        ensures counts { IfOk result (λ closed. AreCountsOf (map pass_memo passes.old.items) closed.1) }
        ensures ok { OnOk result (passes.new.items ≡ []) }
        ensures err { OnErr result (passes.new ≡ passes.old) }
        ensures room { vec_capacity passes.new ≡ vec_capacity passes.old }
        // Once the output is given back, all holds that the close leaves.
        ensures* after_borrow { sem 𝓛 (Rests (the_row C.row L.row) self.entry (λ new.
            CloseLeaves C.stands L.noted C.events C.kept shared.now tick (map pass_memo passes.old.items) self.old result new)) }
    {
        self.check(tick)?;
        self.finish(shared, passes, tick);
        let totals = self.totals;
        Ok((&self.out, totals))
    }

    /// What all turns so far took and lost.
    #[tactic(auto, using(crate::proofs::ReportLemmas::sums_of))]
    pub fn totals(&self) -> Totals
        requires { IsManager C.events C.kept self.now }
        ensures { (config : Parts) (turns : List Turn) → Stands C.stands config self.now turns → AreSumsOf turns result }
    {
        self.totals
    }

    /// How many messages all turns so far sent, counted up to 2^64 - 1.
    pub fn messages(&self) -> u64
        ensures { (config : Parts) (turns : List Turn) →
            Stands C.stands config self.now turns → result ≡ min (count_of config turns) (2 ^ 64 - 1) }
    {
        self.sent.messages
    }

    /// How many qualified events the limits held back in all turns so far, counted up to 2^64 - 1. Those of the internal
    /// event that tells of them do not count.
    pub fn limited(&self) -> u64
        ensures { (config : Parts) (turns : List Turn) →
            Stands C.stands config self.now turns → result ≡ min (held_of config turns) (2 ^ 64 - 1) }
    {
        self.sent.limited
    }

    /// The chain, after the last turn.
    pub fn chain(&self) -> &C
        ensures { result.now ≡ self.now.chain }
    {
        &self.chain
    }

    /// The head of the last turn, all 0 before the first.
    pub fn head(&self) -> TurnHead
        ensures { result ≡ self.now.head }
    {
        self.head
    }

    /// How many entries the last turn had.
    pub fn taken(&self) -> u64
        ensures { result ≡ self.now.taken }
    {
        self.taken
    }

    /// What the last turn sent.
    pub fn out(&self) -> &TurnOut
        ensures { result.now ≡ self.now.out }
    {
        &self.out
    }

    /// The log that is shown each turn.
    pub fn log(&self) -> &L
        ensures { result.now ≡ self.now.log }
    {
        &self.log
    }

    /// The manager without its log, and the log.
    pub fn part_log(self) -> (Manager<C>, L)
        ensures manager { result.0 ≡ without_log self }
        ensures log { result.1 ≡ self.log }
    {
        let manager = Manager {
            desk: self.desk,
            chain: self.chain,
            log: Unlogged,
            items: self.items,
            back: self.back,
            out: self.out,
            rests: self.rests,
            totals: self.totals,
            sent: self.sent,
            head: self.head,
            taken: self.taken,
            turns: self.turns,
            positions: self.positions,
            largest: self.largest,
        };
        (manager, self.log)
    }

    /// How many turns were made.
    pub fn turns(&self) -> u64
        ensures { result ≡ turns_of self.now }
    {
        self.turns
    }

    /// The rests so far.
    pub fn rests(&self) -> &RestLog
        ensures { rests_told result.now ≡ rests_of self.now }
    {
        &self.rests
    }

    /// Makes room for so many rests of so many passes, so that they take no memory when they come.
    /// Memory: may answer want of memory; for each rest 8 bytes, and 8 more for each pass, kept as long as the manager.
    /// By: `room`, `same`, `rests`; no loop.
    pub fn reserve_rests(&mut self, rests: u64, passes: u64) -> Result<(), NoMemory>
        ensures room { OnOk result (HasRestRoom rests passes self.new.rests) }
        ensures same { StaysSo C.stands C.events C.kept self.old self.new }
        ensures rests { rests_of self.new ≡ rests_of self.old }
    {
        self.rests.reserve(rests, passes)
    }

    /// Records a rest: how many turns were made, and how many calls by each of these passes. No call is under way,
    /// since the passes are all lent to it.
    /// Steps: no step on a ring; the calls of each pass, at most 32, are read. Memory: may answer want of memory; none
    /// where `reserve_rests` made the room. By: `ok`: one rest with `calls_by` of these passes; `err`; `room`; the passes
    /// by `&`.
    pub fn rest<P: HasPass>(&mut self, passes: &[P]) -> Result<(), NoMemory>
        requires passes { HasPasses C.events C.kept (map P.its passes.now) self.old }
        ensures ok { OnOk result (rests_of self.new ≡ with_rest (turns_of self.old) (calls_by P.its passes.now) (rests_of self.old)) }
        ensures err { OnErr result (rests_of self.new ≡ rests_of self.old) }
        ensures room { HasRestRoom 1 (length passes.now) self.old.rests → IsOk result × KeepsRestRoom self.old.rests self.new.rests }
        ensures same { StaysSo C.stands C.events C.kept self.old self.new }
    {
        self.rests.add(self.turns, passes)
    }

    /// The event memory after the last turn.
    /// Steps: one `Chain::memory`: constant. Waits: as its chain; `EventChain`: no.
    pub fn memory(&self) -> &Memory
        ensures { (config : Parts) (turns : List Turn) →
            Stands C.stands config self.now turns → reverse result.now.rows ≡ rows_of config turns }
    {
        self.chain.memory()
    }

    /// How many buffers of a class wait for a free position.
    #[tactic(auto, using(crate::proofs::GiverLemmas::few_late))]
    pub fn late(&self, class: u8) -> u16
        requires mine { IsManager C.events C.kept self.now }
        requires class { class < length (givers_of self.now.desk.givers) }
        ensures { result ≡ late_of self.now.desk.givers class }
    {
        self.desk.late(class) as u16
    }

    /// How many bytes a buffer of the largest class can hold, 0 where there is no class.
    pub fn largest(&self) -> u64
        ensures { result ≡ self.now.largest }
    {
        self.largest
    }

    // Whether a turn may have this tick.
    fn check(&self, tick: u64) -> Result<(), TurnFault>
        ensures { TurnFails (last_of self.now) tick result }
    {
        if tick < self.head.tick {
            return Err(TurnFault::TickBack);
        }
        if tick > MAX_TICK {
            return Err(TurnFault::TickTooLarge);
        }
        Ok(())
    }

    // Takes all passes back, and all that is left in a last turn of a tick that may be.
    fn finish(&mut self, shared: &Shared, passes: &mut Vec<Pass>, tick: u64)
        requires mine { IsManagerOf C.events C.kept shared.now self.old }
        requires few { turns_of self.old < 2 ^ 62 }
        requires later { last_of self.old ≤ tick }
        requires within { tick ≤ 2 ^ 62 }
        requires passes { AreAllPasses shared.now (desk_memo self.old.desk) passes.old.items }
        ensures mine { IsManagerOf C.events C.kept shared.now self.new }
        ensures quick { IsQuick shared.now (length passes.old.items) self.old.desk self.new.desk }
        ensures closed { Closed C.stands L.noted C.kept shared.now tick (map pass_memo passes.old.items) self.old self.new }
        ensures empty { passes.new.items ≡ [] }
        ensures room { vec_capacity passes.new ≡ vec_capacity passes.old }
    {
        welcome_all(&mut self.desk, shared, passes);
        self.step(shared, tick);
    }

    // Makes a turn of a tick that may be.
    fn step(&mut self, shared: &Shared, tick: u64)
        requires mine { IsManagerOf C.events C.kept shared.now self.old }
        requires few { turns_of self.old < 2 ^ 62 }
        requires later { last_of self.old ≤ tick }
        requires within { tick ≤ 2 ^ 62 }
        ensures mine { IsManagerOf C.events C.kept shared.now self.new }
        ensures turned { Turned C.stands L.noted C.kept tick (desk_memo self.old.desk) (givers_of self.old.desk.givers) self.old self.new }
        ensures quick { IsQuick shared.now 0 self.old.desk self.new.desk }
        // Once all passes are back, it takes all that was accepted, sweeps all that was marked, and settles each class.
        ensures all_taken { AreAllBack (desk_memo self.old.desk) → IsAllTaken (desk_memo self.new.desk) }
        ensures swept { AreAllBack (desk_memo self.old.desk) → AreAllSwept 0 (desk_memo self.new.desk) × AreAllSwept 1 (desk_memo self.new.desk) }
        ensures settled { AreAllBack (desk_memo self.old.desk) → EachSettled self.new.desk }
    {
        let (lost_events, lost_contexts) = self.desk.sweep(shared);
        let head = TurnHead {
            tick,
            lost_events,
            lost_contexts,
            limited: self.chain.limited(),
        };
        take_ready(&mut self.desk, shared, &mut self.items);
        let taken = self.items.len() as u64;
        self.totals = self.totals.with(taken, lost_events, lost_contexts);
        self.log.note(&head, &self.items);
        self.chain
            .judge(&head, &mut self.items, &mut self.back, &mut self.out);
        let held = self.chain.limited();
        self.sent = self.sent.with_turn(self.out.messages(), held);
        self.desk.give_back(shared, &mut self.back);
        self.head = head;
        self.taken = taken;
        self.turns += 1;
    }
}
