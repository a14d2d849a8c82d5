//! Controls: what callers tell the filters.
ghost use Rattle.report_api.specs.{ControlTells, Controls, ModeTells, IsPassOf, State, IsControl, AdmitsAct};

use crate::answer::Control;
use crate::pass::{Pass, put};
use crate::report::MOST_CALLS;
use crate::shared::Shared;
use buffer_classes::CtxBuf;
use ids_types::{Act, EventIndex, Mode};

impl Pass {
    /// Tells the block state filter that the state changed.
    /// Steps: one load, at most one fetch_add, and one exchange and one store for the item: at most 3 steps.
    /// By: `Controls`: `steps`, `told` (`ControlTells`); answer `Control`, no NoMemory.
    pub fn state_changed(&mut self, shared: &Shared, state: u8) -> Control
        requires mine { IsPassOf shared.now self.old }
        ensures { Controls (ControlTells (State state)) shared.now self.old result self.new }
    {
        self.control(shared, Act::State(state))
    }

    /// Sets the reporting mode of an event, of an internal one too.
    /// Steps: one load, at most one fetch_add, and one exchange and one store for the item: at most 3 steps.
    /// By: `Controls`: `steps`, `told` (`ModeTells`); answer `Control`, no NoMemory.
    pub fn set_mode(&mut self, shared: &Shared, event: EventIndex, mode: Mode) -> Control
        requires mine { IsPassOf shared.now self.old }
        ensures { Controls (ModeTells event mode) shared.now self.old result self.new }
    {
        if !shared.terms.has_event(event) {
            return Control::UnknownEvent;
        }
        self.control(shared, Act::SetMode { event, mode })
    }

    // Puts a control into an event buffer, if one is free. One that is lost is not marked.
    fn control(&mut self, shared: &Shared, act: Act<CtxBuf>) -> Control
        requires mine { IsPassOf shared.now self.old }
        requires admitted { AdmitsAct shared.now.terms act }
        requires control { IsControl act }
        ensures { Controls (ControlTells act) shared.now self.old result self.new }
    {
        if self.seat.calls() == MOST_CALLS {
            return Control::PassSpent;
        }
        match self.seat.claim(&shared.queue) {
            Ok(_) => Control::Accepted(put(&shared.queue, &mut self.seat, &mut self.spare, act)),
            Err(look) => Control::LostEvent(look),
        }
    }
}
