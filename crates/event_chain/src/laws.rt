//! What a chain keeps.

ghost use Rattle.std.specs.Prelude.{◌≡◌, List, map, reverse};
ghost use Rattle.event_chain.specs.Names.{Turn, Parts};
ghost use Rattle.filter_chain.specs.Kept.{open_contexts};
ghost use Rattle.event_chain.specs.{chain_kept, Watched, StandsWatched};

use crate::witness::Witness;
use ids_types::Parcel;

/// The parcels that a chain keeps have the context data of the open windows, event by event: it keeps these and no other.
#[tactic(auto, using(crate::specs::Kept::kept_are))]
pub fn a_chain_keeps_what_its_open_windows_do<B: Parcel, W: Witness>()
    ensures { (config : Parts) (turns : List Turn) (chain : Watched B W) → StandsWatched B.held W.knows config (reverse turns) chain
        → map B.held (chain_kept chain) ≡ open_contexts config turns }
{}
