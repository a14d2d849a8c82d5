//! A handle of C's.
ghost use Rattle.std.specs.Prelude.{◌≡◌, None, Some, Option, IfSome, is_some};
ghost use Rattle.idsm_api.specs.Handled.{IsFit};
ghost use Rattle.idsm_api.specs.declared.role.Role.{Role as RoleValue};
ghost use Rattle.idsm_c.specs.Opened.{as_boxed, as_open};

use crate::loose::Loose;
use idsm_api::Role;
use std::alloc::Global;
use std::marker::Model;
use std::mem;

/// Null, or a caller or a manager that it owns. C fills it with zeros before its first use, and never copies it.
#[repr(C)]
#[derive(Drop)]
pub struct Handle {
    at: *mut u8,
    /// What it has.
    pub ghost content: { Option RoleValue },
}

impl Model for Handle {
    ghost use Rattle.idsm_api.specs.contracts.role.Role.{the_row};
    ghost use Rattle.idsm_api.specs.Handled.{IsFit};
    ghost use Rattle.idsm_c.specs.Held.{held};

    ghost also_owns = { λ h. held the_row IsFit h.at h.content };
}

unsafe impl Send for Handle {}

impl Handle {
    // A null one.
    fn empty() -> Handle
        ensures { result.content ≡ None }
    {
        Handle {
            at: std::ptr::null_mut(),
        }
    }

    // One that has what the box had.
    fn close(loose: Loose<Role, Global>) -> Handle
        requires { IsFit loose.value }
        ensures { result.content ≡ Some loose.value }
    {
        let Loose { at, alloc: _ } = loose;
        Handle { at: at as *mut u8 }
    }

    // The box that it has.
    fn open(self, alloc: Global) -> Option<Loose<Role, Global>>
        ensures { (as_open result ≡ self.content) × IfSome (as_open result) IsFit }
    {
        let Handle { at } = self;
        if at.is_null() {
            None
        } else {
            Some(Loose {
                at: at as *mut Role,
                alloc,
            })
        }
    }

    /// Takes what it has, and leaves it null.
    pub(crate) fn take(&mut self, alloc: Global) -> Option<Box<Role, Global>>
        ensures was { as_boxed result ≡ self.old.content }
        ensures fit { IfSome (as_boxed result) IsFit }
        ensures null { self.new.content ≡ None }
    {
        let taken = mem::replace(self, Handle::empty());
        match taken.open(alloc) {
            Some(loose) => Some(loose.into_box()),
            None => None,
        }
    }

    /// Whether it has something.
    pub(crate) fn has_any(&mut self, alloc: Global) -> bool
        ensures told { result ≡ is_some self.old.content }
        ensures same { self.new.content ≡ self.old.content }
    {
        match self.take(alloc) {
            None => false,
            Some(role) => {
                self.put(role);
                true
            }
        }
    }

    /// Puts a role into it, and forgets what it had.
    pub(crate) fn put(&mut self, role: Box<Role, Global>)
        requires { IsFit role.value }
        ensures { self.new.content ≡ Some role.value }
    {
        *self = Handle::close(Loose::of(role));
    }
}
