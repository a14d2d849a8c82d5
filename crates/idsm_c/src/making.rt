//! How handles are filled.
ghost use Rattle.std.specs.Prelude.{◌≡◌, ◌==◌, Some, length, map, not, IfOk, Result, ◌∷◌};
ghost use Rattle.std.specs.List.{All};
ghost use Rattle.ids_config.specs.Parts.{Parts};
ghost use Rattle.ids_config.specs.declared.fault.ConfigFault.{ConfigFault};
ghost use Rattle.config_json.specs.Configured.{Tells, configuration};
ghost use Rattle.config_tables.specs.Tables.{config_in};
ghost use Rattle.idsm_api.specs.Handled.{IsFit};
ghost use Rattle.idsm_c.specs.Making.{AreFit, AreNew, Inits, NothingFilled, caller_roles, contents_of, fault_of, is_taken, no_fault, refused, roles_in};

use crate::handle::Handle;
use config_json::JsonFault;
use config_tables::{ClassRow, EventRow, TopRow};
use ids_config::{Config, ConfigFault, ConfigPlace};
use ids_types::NoMemory;
use idsm_api::{Answer, Caller, Manager, Role, With};
use std::alloc::{AllocError, Global};

/// The first fault of a configuration: its number, and where it stands. All is 0 where there is none.
#[repr(C)]
#[derive(Clone, Copy)]
pub struct Fault {
    pub number: u32,
    /// 0 top, 1 class, 2 event.
    pub part: u32,
    pub place: u32,
}

// No fault.
fn no_fault() -> Fault
    ensures { result ≡ no_fault }
{
    Fault {
        number: 0,
        part: 0,
        place: 0,
    }
}

// A fault as numbers.
fn fault_of(fault: ConfigFault) -> Fault
    ensures { result ≡ fault_of fault }
{
    let (part, place) = match fault.place {
        ConfigPlace::Top => (0, 0),
        ConfigPlace::Class(place) => (1, place),
        ConfigPlace::Event(place) => (2, place),
    };
    Fault {
        number: u32::from(fault.number),
        part,
        place,
    }
}

// Whether any of the handles has something.
fn is_any_taken(alloc: Global, handles: &mut [Handle]) -> bool
    ensures told { result ≡ is_taken (contents_of handles.old) }
    ensures same { contents_of handles.new ≡ contents_of handles.old }
{
    for i in 0..handles.len() {
        if handles[i].has_any(alloc) {
            return true;
        }
    }
    false
}

// Whether any of all the handles has something.
fn is_occupied(alloc: Global, callers: &mut [Handle], manager: &mut Handle) -> bool
    ensures told { result ≡ is_taken (manager.old.content ∷ contents_of callers.old) }
    ensures same { NothingFilled (contents_of callers.old) manager.old.content (contents_of callers.new) manager.new.content }
{
    manager.has_any(alloc) || is_any_taken(alloc, callers)
}

// What handles are filled with: the callers by their numbers, and their manager.
#[derive(Drop)]
struct Roles {
    callers: Vec<Box<Role, Global>>,
    manager: Box<Role, Global>,
}

// A role in a box.
fn boxed(alloc: Global, role: Role) -> Result<Box<Role, Global>, AllocError>
    ensures { IfOk result (λ made. made.value ≡ role) }
{
    Ok(Box::new(alloc, role)?)
}

// The callers, each as a role in a box.
fn boxed_callers(alloc: Global, callers: Vec<Caller>) -> Result<Vec<Box<Role, Global>>, AllocError>
    ensures { IfOk result (λ boxes. roles_in boxes.items ≡ caller_roles callers.items) }
{
    let mut boxes = Vec::with_capacity(alloc, callers.len())?;
    for caller in callers {
        boxes.push_reserved(boxed(alloc, Role::Calls(caller))?);
    }
    Ok(boxes)
}

// The roles of a configuration.
fn roles_of(alloc: Global, config: &Config, with: With) -> Result<Roles, NoMemory>
    ensures made { IfOk result (λ roles. AreNew with.journal config.now (roles_in roles.callers.items) roles.manager.value) }
    ensures fit { IfOk result AreFit }
{
    let setup = Manager::make_for(alloc, config, with)?;
    let callers = boxed_callers(alloc, setup.callers)?;
    let manager = boxed(alloc, Role::Turns(setup.manager))?;
    Ok(Roles { callers, manager })
}

// Puts the roles into the handles, from the last on.
fn put_all(handles: &mut [Handle], mut roles: Vec<Box<Role, Global>>)
    requires fit { All IsFit (roles_in roles.items) }
    requires as_many { length roles.items ≡ length handles.old }
    ensures { contents_of handles.new ≡ map Some (roles_in roles.items) }
{
    while let Some(role) = roles.pop() {
        handles[roles.len()].put(role);
    }
}

// What is told if no configuration was found.
fn refused(refusal: JsonFault) -> (Answer, Fault)
    ensures { result ≡ refused refusal }
{
    match refusal {
        JsonFault::Config(fault) => (Answer::Configuration, fault_of(fault)),
        JsonFault::NoMemory => (Answer::NoMemory, no_fault()),
    }
}

// Fills the handles with what is made of the configuration that was found.
fn init(
    alloc: Global,
    found: Result<Config, JsonFault>,
    journal: u8,
    callers: &mut [Handle],
    manager: &mut Handle,
    fault: &mut Fault,
) -> u8
    ensures { (deserved : Result Parts ConfigFault) → Tells deserved found → Inits (not (journal == 0)) deserved
        (contents_of callers.old) manager.old.content result (contents_of callers.new) manager.new.content fault.new }
{
    *fault = no_fault();
    if is_occupied(alloc, callers, manager) {
        return Answer::Occupied.code();
    }
    let config = match found {
        Ok(config) => config,
        Err(refusal) => {
            let (answer, first) = refused(refusal);
            *fault = first;
            return answer.code();
        }
    };
    if config.parts().callers != callers.len() as u64 {
        return Answer::OutOfRange.code();
    }
    let with = With {
        journal: journal != 0,
    };
    let Ok(roles) = roles_of(alloc, &config, with) else {
        return Answer::NoMemory.code();
    };
    put_all(callers, roles.callers);
    manager.put(roles.manager);
    Answer::Done.code()
}

/// Fills a handle for each caller of the configuration that the bytes are the JSON text of, and one for the manager, which
/// keeps the lines of its turns for a journal unless `journal` is 0. If it answers anything but done, no handle is changed.
/// Steps: as `config_json::read` and `idsm_api::Manager::make_for`, and a box for each handle. Memory: made once. By:
/// `Inits`; no other call but `idsm_raw_init_tables` answers want of memory.
#[unsafe(no_mangle)]
pub extern "C" fn idsm_raw_init(
    alloc: Global,
    config: &[u8],
    journal: u8,
    callers: &mut [Handle],
    manager: &mut Handle,
    fault: &mut Fault,
) -> u8
    ensures { Inits (not (journal == 0)) (configuration config.now) (contents_of callers.old) manager.old.content result
        (contents_of callers.new) manager.new.content fault.new }
{
    let found = config_json::read(alloc, config);
    init(alloc, found, journal, callers, manager, fault)
}

/// The same for the configuration that tables have.
/// Steps: as `config_tables::read` and `idsm_api::Manager::make_for`, and a box for each handle. Memory: made once. By:
/// `Inits`, as of a text: so tables and a text of one configuration make the same.
#[unsafe(no_mangle)]
pub extern "C" fn idsm_raw_init_tables(
    alloc: Global,
    top: &TopRow,
    classes: &[ClassRow],
    events: &[EventRow],
    journal: u8,
    callers: &mut [Handle],
    manager: &mut Handle,
    fault: &mut Fault,
) -> u8
    ensures { Inits (not (journal == 0)) (config_in top.now classes.now events.now) (contents_of callers.old)
        manager.old.content result (contents_of callers.new) manager.new.content fault.new }
{
    let found = config_tables::read(alloc, top, classes, events);
    init(alloc, found, journal, callers, manager, fault)
}
