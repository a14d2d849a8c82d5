//! A caller or a manager: what one handle can have.
ghost use Rattle.report_api.specs.Answers.{given};
ghost use Rattle.idsm_api.specs.{asked_mode, asked_state, IsFit, RoleCalls, RoleJournal, RoleLate, RoleMode, RoleMost, RoleReports, RoleRow, RoleSets, RoleStatus, RoleTurns, RoleRows};

use crate::answer::Answer;
use crate::caller::Caller;
use crate::manager::Manager;
use crate::number::{NumberAnswer, told, untold};
use crate::reading::{RowAnswer, Status};
use crate::turning::TurnAnswer;
use ids_types::{EventIndex, Mode, Stamp};

/// A caller or a manager.
#[derive(Drop)]
pub enum Role {
    Calls(Caller),
    Turns(Manager),
}

impl Role {
    /// A caller's `report`.
    /// Steps: as `Caller::report`. By: `RoleReports`.
    pub fn report(
        &mut self,
        event: EventIndex,
        count: u16,
        stamp: Option<Stamp>,
        context: &[u8],
    ) -> Answer
        requires fit { IsFit self.old }
        ensures fit { IsFit self.new }
        ensures told { RoleReports (given event count stamp context.now) self.old result self.new }
    {
        match self {
            Role::Calls(caller) => caller.report(event, count, stamp, context),
            Role::Turns(_) => Answer::OtherRole,
        }
    }

    /// A caller's `set_state`.
    /// Steps: as `Caller::set_state`. By: `RoleSets`.
    pub fn set_state(&mut self, state: u8) -> Answer
        requires fit { IsFit self.old }
        ensures fit { IsFit self.new }
        ensures told { RoleSets (asked_state state) self.old result self.new }
    {
        match self {
            Role::Calls(caller) => caller.set_state(state),
            Role::Turns(_) => Answer::OtherRole,
        }
    }

    /// A caller's `set_mode`.
    /// Steps: as `Caller::set_mode`. By: `RoleSets`.
    pub fn set_mode(&mut self, event: EventIndex, mode: Mode) -> Answer
        requires fit { IsFit self.old }
        ensures fit { IsFit self.new }
        ensures told { RoleSets (asked_mode event mode) self.old result self.new }
    {
        match self {
            Role::Calls(caller) => caller.set_mode(event, mode),
            Role::Turns(_) => Answer::OtherRole,
        }
    }

    /// A manager's `turn`.
    /// Steps: as `Manager::turn`. By: `RoleTurns`.
    pub fn turn(&mut self, tick: u64, buffer: &mut [u8]) -> TurnAnswer
        requires fit { IsFit self.old }
        ensures fit { IsFit self.new }
        ensures told { RoleTurns tick self.old buffer.old result self.new buffer.new }
    {
        match self {
            Role::Turns(manager) => manager.turn(tick, buffer),
            Role::Calls(_) => TurnAnswer::refused(Answer::OtherRole),
        }
    }

    /// A manager's `most_bytes`.
    /// By: `RoleMost`.
    pub fn most_bytes(&self) -> NumberAnswer
        requires { IsFit self.now }
        ensures { RoleMost self.now result }
    {
        match self {
            Role::Turns(manager) => told(manager.most_bytes()),
            Role::Calls(_) => untold(Answer::OtherRole),
        }
    }

    /// A manager's `rows`.
    /// By: `RoleRows`.
    pub fn rows(&self) -> NumberAnswer
        ensures { RoleRows self.now result }
    {
        match self {
            Role::Turns(manager) => told(u64::from(manager.rows())),
            Role::Calls(_) => untold(Answer::OtherRole),
        }
    }

    /// A manager's `row`.
    /// Steps: as `Manager::row`. By: `RoleRow`.
    pub fn row(&self, i: u16, buffer: &mut [u8]) -> RowAnswer
        ensures { RoleRow self.now i buffer.old result buffer.new }
    {
        match self {
            Role::Turns(manager) => manager.row(i, buffer),
            Role::Calls(_) => RowAnswer {
                answer: Answer::OtherRole,
                row: None,
            },
        }
    }

    /// A manager's `late`.
    /// Steps: as `Manager::late`. By: `RoleLate`.
    pub fn late(&self, class: u8) -> NumberAnswer
        requires { IsFit self.now }
        ensures { RoleLate self.now class result }
    {
        match self {
            Role::Turns(manager) => match manager.late(class) {
                Some(late) => told(u64::from(late)),
                None => untold(Answer::OutOfRange),
            },
            Role::Calls(_) => untold(Answer::OtherRole),
        }
    }

    /// A caller's `calls`.
    /// By: `RoleCalls`.
    pub fn calls(&self) -> NumberAnswer
        requires { IsFit self.now }
        ensures { RoleCalls self.now result }
    {
        match self {
            Role::Calls(caller) => told(caller.calls()),
            Role::Turns(_) => untold(Answer::OtherRole),
        }
    }

    /// A manager's `mode`, `OutOfRange` if there is no such event.
    /// By: `RoleMode`.
    pub fn mode(&self, event: EventIndex) -> Result<Mode, Answer>
        requires { IsFit self.now }
        ensures { RoleMode self.now event result }
    {
        match self {
            Role::Turns(manager) => manager.mode(event).ok_or(Answer::OutOfRange),
            Role::Calls(_) => Err(Answer::OtherRole),
        }
    }

    /// A manager's `status`.
    /// By: `RoleStatus`.
    pub fn status(&self) -> Result<Status, Answer>
        requires { IsFit self.now }
        ensures { RoleStatus self.now result }
    {
        match self {
            Role::Turns(manager) => Ok(manager.status()),
            Role::Calls(_) => Err(Answer::OtherRole),
        }
    }

    /// Part of a manager's `journal`: as many bytes as fit, from byte `at` on, go to the front of the buffer, and it answers
    /// how many: 0 at the end.
    /// Steps: the bytes that are written. By: `RoleJournal`.
    pub fn journal(&self, at: u64, buffer: &mut [u8]) -> NumberAnswer
        ensures { RoleJournal self.now at buffer.old result buffer.new }
    {
        match self {
            Role::Turns(manager) => manager.manager.log().put_part(at, buffer),
            Role::Calls(_) => untold(Answer::OtherRole),
        }
    }
}
