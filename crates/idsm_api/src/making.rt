//! How a manager and its callers are made, from a configuration or its text.
ghost use Rattle.std.specs.Prelude.{◌≡◌, false, IfOk};
ghost use Rattle.std.specs.Arc.{arc_value};
ghost use Rattle.std.specs.List.{All};
ghost use Rattle.config_json.specs.Configured.{configuration};
ghost use Rattle.idsm_api.specs.{IsNewSetup, IsNewText, MakesSetup, passes_of, caller_shares};

use crate::caller::Caller;
use crate::manager::Manager;
use crate::text::{TurnText, room_for};
use config_json::{JsonFault, read};
use event_chain::EventChain;
use filter_chain::most_sent;
use ids_config::Config;
use ids_types::NoMemory;
use report_api::{Pass, Shared};
use std::alloc::Global;
use std::sync::Arc;

/// A manager, and its callers by their numbers.
#[derive(Drop)]
pub struct Setup {
    pub callers: Vec<Caller>,
    pub manager: Manager,
}

/// What a manager is made with besides its configuration.
#[derive(Clone, Copy, Debug)]
pub struct With {
    /// Whether it keeps the lines of each turn for a journal (`Manager::journal`).
    pub journal: bool,
}

// A caller for each pass.
fn callers_of(
    alloc: Global,
    shared: &Arc<Shared>,
    passes: Vec<Pass>,
) -> Result<Vec<Caller>, NoMemory>
    ensures passes { IfOk result (λ callers. passes_of callers.items ≡ passes.items) }
    ensures shares { IfOk result (λ callers. All (λ caller. caller_shares caller ≡ arc_value shared.now) callers.items) }
{
    let mut callers = Vec::with_capacity(alloc, passes.len())?;
    for pass in passes {
        callers.push_reserved(Caller {
            shared: Arc::try_clone(shared)?,
            pass,
        });
    }
    Ok(callers)
}

impl Manager {
    /// Makes the manager and the callers of the configuration that the bytes are the JSON text of, or answers its first
    /// fault. Nothing is reported yet, all buffers are free, and no journal is kept. No other call of a manager or a caller
    /// takes memory.
    /// Steps: as `Manager::make_with`. Memory: made once. By: `MakesSetup`; no other call of
    /// this crate but `make_with` and `make_for` answers NoMemory.
    pub fn make(alloc: Global, text: &[u8]) -> Result<Setup, JsonFault>
        ensures setup { MakesSetup (configuration text.now) result }
        ensures text { IfOk result (λ setup. IsNewText false setup.manager.manager.log) }
    {
        Manager::make_with(alloc, text, With { journal: false })
    }

    /// The same with a journal, if one is asked for.
    /// Steps: as `config_json::read` and `Manager::make_for`. Memory: made once. By: `MakesSetup`.
    pub fn make_with(alloc: Global, text: &[u8], with: With) -> Result<Setup, JsonFault>
        ensures setup { MakesSetup (configuration text.now) result }
        ensures text { IfOk result (λ setup. IsNewText with.journal setup.manager.manager.log) }
    {
        let config = read(alloc, text)?;
        match Manager::make_for(alloc, &config, with) {
            Ok(setup) => Ok(setup),
            Err(NoMemory) => Err(JsonFault::NoMemory),
        }
    }

    /// The same for a configuration that is there already.
    /// Steps: as `event_chain::EventChain::make` and `main_function::make`, and a handle of what is shared for each
    /// caller, at most 32. Memory: made once. By: `IsNewSetup`.
    pub fn make_for(alloc: Global, config: &Config, with: With) -> Result<Setup, NoMemory>
        ensures setup { IfOk result (IsNewSetup config.now) }
        ensures text { IfOk result (λ setup. IsNewText with.journal setup.manager.manager.log) }
    {
        let parts = config.parts();
        let chain = EventChain::make(alloc, config)?;
        let text = TurnText::make(alloc, with.journal, room_for(&parts))?;
        let made = main_function::make(alloc, config, chain, text)?;
        let shared = Arc::new(alloc, made.shared)?;
        let callers = callers_of(alloc, &shared, made.passes)?;
        let passes = Vec::with_capacity(alloc, callers.len())?;
        let events = parts.events.len() as u64;
        let classes = parts.classes.len() as u8;
        let most = most_sent(made.manager.largest(), parts.ring, events);
        let manager = Manager {
            shared,
            manager: made.manager,
            passes,
            most,
            classes,
            events,
        };
        Ok(Setup { callers, manager })
    }
}
