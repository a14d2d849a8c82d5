//! The trait that each filter chain meets, and one for chains that keep all context data that they may send.

ghost use Rattle.std.specs.Prelude.{◌≡◌, ◌≤◌, ◌+◌, ◌^◌, ℕ, Bool, true, [], ◌∷◌, ◌++◌, List, length, map, reverse, vec_len, vec_capacity, OnOk};
ghost use Rattle.std.specs.List.{All};
ghost use Rattle.ids_types.specs.{room_of, Turn};
ghost use Rattle.ids_config.specs.Parts.{Parts};
ghost use Rattle.filter_chain.specs.History.{last_tick, handed_of, rows_of, Sends};
ghost use Rattle.filter_chain.specs.Kept.{AreAmong, open_contexts};
ghost use Rattle.filter_chain.specs.Parcels.{HandsBack, IsShort, all_parcels};
ghost use Rattle.filter_chain.specs.Turning.{FitsLargest, FitsTurn, bytes_in, most_sent, turn_by};
ghost use Rattle.ids_types.specs.declared.entry.Entry.{Entry};

use event_memory::Memory;
use ids_types::{Entry, NoMemory, Parcel, TurnHead, TurnOut};

/// A filter chain, which takes one turn after another and never looks back.
pub trait Chain<B: Parcel> {
    /// The chain is that of the configuration after these turns, the first of them first.
    ghost stands: { Self → Parts → List Turn → Type 0 };

    /// How many events there are.
    ghost events: { Self → ℕ };

    /// The parcels that are kept.
    ghost kept: { Self → List B };

    /// There is room for one more turn of so many entries and bytes of context data.
    ghost has_room: { Self → ℕ → ℕ → Bool };

    /// The messages of a turn of these entries have at most so many bytes.
    ghost sends_within: { Self → List (Entry B) → ℕ → Type 0 };

    /// Makes room for one more turn of so many entries and bytes of context data.
    /// Memory: may answer want of memory; `EventChain` takes none and never does. Waits: as its chain; `EventChain`:
    /// no.
    fn reserve(&mut self, entries: u64, bytes: u64) -> Result<(), NoMemory>
        ensures ok { OnOk result (has_room self.new entries bytes ≡ true) }
        ensures stands { (config : Parts) (turns : List Turn) →
            stands self.old config turns → stands self.new config turns }
        ensures events { events self.new ≡ events self.old }
        ensures kept { kept self.new ≡ kept self.old };

    /// The number that the last turn hands on to the next, 0 before the first.
    /// Waits: as its chain; `EventChain`: no.
    fn limited(&self) -> u64
        ensures value { (config : Parts) (turns : List Turn) →
            stands self.now config turns → result ≡ handed_of config turns }
        ensures bound { result ≤ 2 ^ 45 };

    /// The event memory after the last turn.
    /// Waits: as its chain; `EventChain`: no.
    fn memory(&self) -> &Memory
        ensures { (config : Parts) (turns : List Turn) →
            stands self.now config turns → reverse result.now.rows ≡ rows_of config turns };

    /// Judges a turn: its head and its items, whose parcels it keeps or hands back. The output's messages are those
    /// of the turn. Takes no memory.
    /// Steps: the events that are aggregated, at most 256, at most 3 internal ones, and the entries, at most 1,024. For
    /// each at most one call of each filter, one `Memory::store` and one `Sender::send`. Waits: as its chain;
    /// `EventChain`: no. By: no answer; conditions `back`, `out` (`sends_within`), `items` (`FitsTurn`); read off.
    fn judge(
        &mut self,
        head: &TurnHead,
        items: &mut Vec<Entry<B>>,
        back: &mut Vec<B>,
        out: &mut TurnOut,
    )
        requires fits { has_room self.old (length items.old.items) (bytes_in B.held items.old.items) ≡ true }
        requires items { FitsTurn B.held (events self.old) items.old.items }
        requires kept { All (IsShort B.held) (kept self.old) }
        requires back { vec_len back.old + vec_len items.old + events self.old ≤ vec_capacity back.old }
        requires out { sends_within self.old items.old.items (room_of out.old) }
        // It stands for the turns with this one, where this tick is no earlier than the last, and sends what
        // these have more to send.
        ensures stands { (config : Parts) (turns : List Turn) → stands self.old config turns →
            last_tick turns ≤ head.now.tick →
            stands self.new config (turns ++ turn_by B.held head.now items.old.items ∷ []) }
        ensures sends { (config : Parts) (turns : List Turn) → stands self.old config turns →
            last_tick turns ≤ head.now.tick →
            Sends config turns (turn_by B.held head.now items.old.items) out.new }
        ensures events { events self.new ≡ events self.old }

        // Each parcel is kept or handed back, and no room is changed.
        ensures parcels { HandsBack (all_parcels items.old.items) (kept self.old) (kept self.new)
            back.old.items back.new.items }
        ensures items { items.new.items ≡ [] }
        ensures items_room { vec_capacity items.new ≡ vec_capacity items.old }
        ensures back_room { vec_capacity back.new ≡ vec_capacity back.old }
        ensures out_room { room_of out.new ≡ room_of out.old };

    /// Each parcel that is kept has the context data of an open window, each window's at most once.
    ghost keeps: { (chain : Self) (config : Parts) (turns : List Turn) → stands chain config turns →
        AreAmong (open_contexts config turns) (map B.held (kept chain)) };

    /// Where there is room for a turn, there is room for each smaller one.
    ghost smaller: { (chain : Self) (entries bytes fewer less : ℕ) → fewer ≤ entries → less ≤ bytes →
        has_room chain entries bytes ≡ true → has_room chain fewer less ≡ true };

    /// The messages of a turn have at most the bytes of those with context data of 1,024 bytes each.
    ghost bounded: { (chain : Self) (items : List (Entry B)) (sent : ℕ) → FitsTurn B.held (events chain) items →
        All (IsShort B.held) (kept chain) → most_sent 1024 (length items) (events chain) ≤ sent →
        sends_within chain items sent };
}

/// A chain that always has room, and whose messages have the context data of parcels that came with the turn or were
/// kept, and no others.
pub trait ParcelChain<B: Parcel>: Chain<B> {
    /// There is room for each turn.
    ghost roomy: { (chain : Self) (entries bytes : ℕ) → Self.has_room chain entries bytes ≡ true };

    /// Where none of these have more bytes than the largest, messages have no more either.
    ghost within: { (chain : Self) (items : List (Entry B)) (largest sent : ℕ) →
        All (FitsLargest B.held largest) (all_parcels items) → All (FitsLargest B.held largest) (Self.kept chain) →
        most_sent largest (length items) (Self.events chain) ≤ sent → Self.sends_within chain items sent };
}
