//! What stays of callers that went on calling.
ghost use Rattle.std.specs.Prelude.{List};
ghost use Rattle.idsm_api.specs.{AreAllCallers, AreSameCallers, Caller};
ghost use Rattle.idsm_api.specs.declared.manager.Manager.{Manager};

/// All callers of a manager are still all of them after calls of their own.
pub fn called_on()
    ensures { (manager : Manager) (olds news : List Caller) → AreAllCallers manager olds → AreSameCallers olds news →
        AreAllCallers manager news }
{}
