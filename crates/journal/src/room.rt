//! Room in a history, some at a time.

ghost use Rattle.std.specs.Prelude.{◌≡◌, OnOk};
ghost use Rattle.ids_types.specs.Turns.{HasRoom};

use ids_types::{History, NoMemory};

/// How many turns, entries and bytes of context room is made for at a time, at least.
const TURNS: u64 = 256;

const ENTRIES: u64 = 4096;

const BYTES: u64 = 65536;

/// Makes room for a turn, where there is none.
pub(crate) fn turn_room(history: &mut History) -> Result<(), NoMemory>
    ensures turns { history.new.turns ≡ history.old.turns }
    ensures room { OnOk result (HasRoom history.new.room 1 0 0) }
{
    if history.has_room(1, 0, 0) {
        return Ok(());
    }
    history.reserve(TURNS, 0, 0)
}

/// Makes room for an entry with so many bytes of context, where there is not so much.
pub(crate) fn entry_room(history: &mut History, len: u64) -> Result<(), NoMemory>
    ensures turns { history.new.turns ≡ history.old.turns }
    ensures room { OnOk result (HasRoom history.new.room 0 1 len) }
{
    if history.has_room(0, 1, len) {
        return Ok(());
    }
    history.reserve(0, ENTRIES, len.max(BYTES))
}
