//! What the definitions say in other words: each function has a law as its contract, and no body.

ghost use Rattle.std.specs.Prelude.{◌≡◌, ℕ, ◌+◌, ◌<◌, ◌≤◌, List, [], ◌∷◌, ◌++◌, Option, Some, IfSome, IsTrue, ◌↔◌, length, map, filter, flat_map, sum, sum_by, false, not, ◌&&◌, ◌||◌, ◌==◌, if◌then◌else◌};
ghost use Rattle.ids_types.specs.Turns.{Turn};
ghost use Rattle.ids_config.specs.Parts.{Parts, event_at};
ghost use Rattle.ids_config.specs.declared.parts.Window.{Window as Limit};
ghost use Rattle.chain_spec.specs.{openers, IsBeyond, AreApart, placed, HaveOwnPlaces, last_filter, IsCausal, account_of, ended_at, comers, number_of, AreConfigured, TellsWindows, events_in, limited_events_in, tick_of, every, closed_items, reaching, reached, candidates, sent, held, messages, ends, handed, handed_on, held_count, message_count, qualified_of, begins, place_of, reaches, passes, begun_at, by_window, items_where, ending_at, endings, IsFirstThat, holds, Ending, seen_at, fate_from, Item, aggregated, thresholded, qualified, counted, arrivals, sampled, Grows, GrowsAtEnd, is_of, Candidate, window_at, those_in, passes_rate, passes_traffic, is_let_out, sent_of, weighed, Moment, moments, is_stored, stored, stored_of, EndBy, opened, members, in_newest, windows_of};
ghost use Rattle.chain_spec.specs.Fates.{Fate, AtSend, AtRate, AtTraffic, Sent};
ghost use Rattle.chain_spec.specs.Quiet.{HaveIntervals, IsQuiet, TellTheSame};

/// A turn more changes nothing of what a history told. Each list of the chain only has newer elements beside the old
/// ones. The messages follow those that were sent, and what is held back counts on.
#[tactic(auto, using(crate::proofs::GrowthLemmas::growth_laws))]
pub fn what_a_turn_more_keeps()
    ensures arrivals { (config : Parts) (event : ℕ) → Grows (λ turns. arrivals config event (moments config turns)) }
    ensures sampled { (config : Parts) (event : ℕ) → Grows (λ turns. sampled config event (moments config turns)) }
    ensures endings { (config : Parts) → Grows (λ turns. endings config (moments config turns)) }
    ensures aggregated { (config : Parts) → Grows (λ turns. aggregated config (moments config turns)) }
    ensures thresholded { (config : Parts) → Grows (λ turns. thresholded config (moments config turns)) }
    ensures qualified { (config : Parts) → Grows (qualified_of config) }
    ensures candidates { (config : Parts) → Grows (λ turns. candidates config (moments config turns)) }
    ensures sent { (config : Parts) → Grows (λ turns. sent config (moments config turns)) }
    ensures held { (config : Parts) → Grows (λ turns. held config (moments config turns)) }
    ensures stored { (config : Parts) → Grows (λ turns. stored config (moments config turns)) }
    ensures messages { (config : Parts) → GrowsAtEnd (messages config) }
    ensures ends { (config : Parts) → Grows (ends config) }
    ensures handed { (config : Parts) → Grows (handed config) }
    ensures count { (config : Parts) (turn : Turn) (before : List Turn) →
        held_count config (turn ∷ before) ≡ held_count config before + handed_on config (turn ∷ before) }
{}

/// No two items end at one place in the history, so that no two qualified events have one place.
#[tactic(auto, using(crate::proofs::StageLemmas::own_places, crate::proofs::GrowthLemmas::endings_placed))]
pub fn where_qualified_events_stand()
    ensures all { (config : Parts) (moments : List Moment) →
        items_where (reaches AtSend) (map (λ one. one.1) (placed (ending_at config) moments)) ≡ qualified config moments }
    ensures own { (config : Parts) (moments : List Moment) → HaveOwnPlaces (placed (ending_at config) moments) }
{}

/// Which items open a window, and which belong to one. An item beyond the windows of all earlier openers
/// opens one, and every other item belongs to the newest; so the openers are apart, and each item lies in
/// exactly one window.
#[tactic(auto, using(crate::proofs::CoverLemmas::window_laws))]
pub fn which_items_open_a_window<A>()
    ensures opens { (tick_of : A → ℕ) (interval : ℕ) (x : A) (before : List A) →
        IsBeyond tick_of interval x (openers (windows_of tick_of interval before)) →
        windows_of tick_of interval (x ∷ before) ≡ opened x ∷ windows_of tick_of interval before }
    ensures belongs { (tick_of : A → ℕ) (interval : ℕ) (x : A) (before : List A) →
        (IsBeyond tick_of interval x (openers (windows_of tick_of interval before)) → ⊥) →
        windows_of tick_of interval (x ∷ before) ≡ in_newest x (windows_of tick_of interval before) }
    ensures apart { (tick_of : A → ℕ) (interval : ℕ) (xs : List A) →
        AreApart tick_of interval (openers (windows_of tick_of interval xs)) }
    ensures all { (tick_of : A → ℕ) (interval : ℕ) (xs : List A) →
        flat_map members (windows_of tick_of interval xs) ≡ xs }
{}

/// What is sent, in the words of the limits. A candidate passes the rate if fewer than the number stand before it
/// in its window. It passes the traffic if the bytes sent in its window and its own are at most the number. It is
/// sent if it passes both.
#[tactic(auto, using(crate::proofs::PassLemmas::limit_laws))]
pub fn which_candidates_are_sent()
    ensures rate { (rate : Limit) (before : List Candidate) (candidate : Candidate) →
        IsTrue (passes_rate (Some rate) before candidate)
        ↔ (length (those_in rate.interval before (window_at rate.interval candidate.tick)) < rate.number) }
    ensures traffic { (traffic : Limit) (sent : List Candidate) (candidate : Candidate) →
        IsTrue (passes_traffic (Some traffic) sent candidate)
        ↔ (sum_by (λ one. one.bytes) (those_in traffic.interval sent (window_at traffic.interval candidate.tick))
        + candidate.bytes ≤ traffic.number) }
    ensures both { (rate traffic : Option Limit) (before : List Candidate) (candidate : Candidate) →
        IsTrue (is_let_out rate traffic before candidate)
        ↔ (IsTrue (passes_rate rate before candidate)
        × IsTrue (passes_traffic traffic (sent_of rate traffic before) candidate)) }
    ensures items { (config : Parts) (moments : List Moment) → map (weighed config) (sent config moments)
        ≡ sent_of config.rate config.traffic (map (weighed config) (candidates config moments)) }
{}

/// The filters of one event over its whole lists, one filter after another, if the ticks of turns do not fall.
/// Every nth of its arrivals goes on. Over these each aggregation window gives one item, at the first turn at which
/// it is due. Of these items those go on that reach the threshold.
#[tactic(auto, using(crate::proofs::EventLemmas::event_laws))]
pub fn what_the_filters_give_of_an_event()
    ensures sampled { (config : Parts) (event : ℕ) (moments : List Moment) →
        sampled config event moments ≡ every (event_at config event).nth (arrivals config event moments) }
    ensures aggregated { (config : Parts) (event : ℕ) (turns : List Turn) (tick : ℕ) → event < length config.events →
        IfSome (event_at config event).aggregate (λ setting. 1 ≤ setting.interval) → EndBy tick_of tick turns →
        filter (is_of event) (aggregated config (moments config turns))
        ≡ closed_items (event_at config event).aggregate (map tick_of turns) (sampled config event (moments config turns)) }
    ensures thresholded { (config : Parts) (event : ℕ) (moments : List Moment) →
        filter (is_of event) (thresholded config moments)
        ≡ reaching (event_at config event).threshold (filter (is_of event) (aggregated config moments)) }
    ensures all { (config : Parts) (event : ℕ) (turns : List Turn) (tick : ℕ) → event < length config.events →
        IfSome (event_at config event).aggregate (λ setting. 1 ≤ setting.interval) → EndBy tick_of tick turns →
        filter (is_of event) (thresholded config (moments config turns))
        ≡ reaching (event_at config event).threshold (closed_items (event_at config event).aggregate (map tick_of turns)
        (every (event_at config event).nth (arrivals config event (moments config turns)))) }
{}

/// A qualified event passed the last filter, or began its way at the sending, and so bypassed the filters. None did both.
#[tactic(auto, using(crate::proofs::PassLemmas::qualified_laws))]
pub fn which_events_are_qualified()
    ensures either { (config : Parts) (moments : List Moment) → qualified config moments
        ≡ items_where (λ one. passes last_filter one || begun_at AtSend one) (endings config moments) }
    ensures alone { (config : Parts) (moments : List Moment) →
        items_where (λ one. passes last_filter one && begun_at AtSend one) (endings config moments) ≡ [] }
{}

/// Where the way of an item ends: at a step that holds it, and no step of its way before does.
pub fn where_an_item_ends()
    ensures { (config : Parts) (before : List Moment) (past : List Ending) (first : Fate) (item : Item) →
        IsFirstThat (λ step. holds config step (seen_at before past step) item) first (fate_from config before past first item) }
{}

/// Where the items of an event stay on their way. What reached a step is what it held, as the account tells, and what
/// it let pass. What reached the next step is what this one let pass, and what began there. Ways begin at three steps
/// alone.
#[tactic(auto, using(crate::proofs::PassLemmas::size_laws))]
pub fn the_numbers_are_the_sizes_of_the_stages()
    ensures step { (config : Parts) (event : ℕ) (moments : List Moment) (step : Fate) →
        number_of event (reached config step moments)
        ≡ ended_at step (account_of config event moments) + number_of event (items_where (passes step) (endings config moments)) }
    ensures next { (config : Parts) (event : ℕ) (moments : List Moment) (step after : Fate) → place_of after ≡ place_of step + 1 →
        number_of event (reached config after moments)
        ≡ number_of event (items_where (passes step) (endings config moments))
        + number_of event (items_where (begun_at after) (endings config moments)) }
    ensures begun { (config : Parts) (moments : List Moment) (step : Fate) → begins step ≡ false →
        items_where (begun_at step) (endings config moments) ≡ [] }
{}

/// Nothing is left out. Each item that comes is told once, in its place, with one fate. What came of an event,
/// together with what its windows gave when they closed, is the sum of what became of it.
#[tactic(auto, using(crate::proofs::AccountLemmas::account_laws))]
pub fn the_fates_add_up()
    ensures each { (config : Parts) (moments : List Moment) →
        map counted (items_where (λ one. not (by_window one)) (endings config moments)) ≡ map counted (comers moments) }
    ensures came { (config : Parts) (event : ℕ) (moments : List Moment) →
        (account_of config event moments).came ≡ number_of event (comers moments) }
    ensures all { (config : Parts) (event : ℕ) (moments : List Moment) →
        let account = account_of config event moments in
        account.came + account.closed ≡ sum account.ended }
{}

/// What the accounts of all events tell as sent are the messages. What they tell as held back by a limit is what the
/// turns hand on together, but for the internal event that tells of it.
#[tactic(auto, using(crate::proofs::AccountLemmas::sum_laws))]
pub fn what_is_told_as_sent_and_held_back()
    ensures messages { (config : Parts) (turns : List Turn) → AreConfigured config (moments config turns) →
        sum_by (λ event. ended_at Sent (account_of config event (moments config turns))) (events_in config)
        ≡ message_count config turns }
    ensures limited { (config : Parts) (turns : List Turn) → AreConfigured config (moments config turns) →
        sum_by (λ event. let account = account_of config event (moments config turns) in ended_at AtRate account + ended_at AtTraffic account)
        (limited_events_in config) ≡ held_count config turns }
    ensures handed { (config : Parts) (turns : List Turn) → sum (handed config turns) ≡ held_count config turns }
{}

/// What the windows of an event held, and what of it is stored. Over turns whose ticks do not fall, each window
/// that closed gave one item, and what joined a window was in one that closed, or waits in the open one. Every
/// item that is told as stored is one, in the same order; a memory of no records has none.
#[tactic(auto, using(crate::proofs::AccountLemmas::storing_laws))]
pub fn what_windows_hold_and_what_is_stored()
    ensures windows { (config : Parts) (event : ℕ) (turns : List Turn) (tick : ℕ) → event < length config.events →
        IfSome (event_at config event).aggregate (λ setting. 1 ≤ setting.interval) → EndBy tick_of tick turns →
        TellsWindows config event (moments config turns) }
    ensures number { (config : Parts) (event : ℕ) (moments : List Moment) → (account_of config event moments).stored
        ≡ (if (event_at config event).store && not (config.memory == 0)
        then number_of event (qualified config moments) else 0) }
    ensures items { (config : Parts) (moments : List Moment) →
        map (stored_of config) (items_where (is_stored config) (endings config moments))
        ≡ (if config.memory == 0 then [] else stored config moments) }
{}

/// A quiet turn may be left out of a history whose ticks do not fall: the history tells the same without it. If
/// nothing was handed on to it, the turns after it hand on the same numbers, and begin with what was handed on to them
/// exactly if they did so with it.
pub fn a_quiet_turn_changes_nothing()
    ensures same { (config : Parts) → HaveIntervals config → (before : List Turn) (turn : Turn) → IsQuiet config before turn →
        (after : List Turn) (tick : ℕ) → EndBy tick_of tick (after ++ turn ∷ before) →
        TellTheSame config (after ++ turn ∷ before) (after ++ before) }
    ensures handed { (config : Parts) → HaveIntervals config → (before : List Turn) (turn : Turn) → IsQuiet config before turn →
        (after : List Turn) (tick : ℕ) → EndBy tick_of tick (after ++ turn ∷ before) → handed_on config before ≡ 0 →
        handed_on config (after ++ turn ∷ before) ≡ handed_on config (after ++ before) }
    ensures causal { (config : Parts) → HaveIntervals config → (before : List Turn) (turn : Turn) → IsQuiet config before turn →
        (after : List Turn) (tick : ℕ) → EndBy tick_of tick (after ++ turn ∷ before) →
        IsCausal config (after ++ turn ∷ before) ↔ ((handed_on config before ≡ 0) × IsCausal config (after ++ before)) }
{}
