//! How much room the messages of a turn need.
ghost use Rattle.std.specs.Prelude.{◌≡◌, ◌<◌, ◌≤◌, ◌+◌, ◌^◌};
ghost use Rattle.filter_chain.specs.Turning.{context_room, most_sent};

use ids_types::INTERNALS;

/// How many bytes a message has at most without context data.
const MOST_WITHOUT_CONTEXT: u64 = 16;

/// How many bytes tell the number of context data at most.
const MOST_OF_LENGTH: u64 = 4;

/// How many bytes the messages of a turn have at most, where no context data have more bytes than the largest, the
/// turn has so many entries, and there are so many events. 0 stands for no context data at all.
pub fn most_sent(largest: u64, entries: u64, events: u64) -> u64
    requires short { largest ≤ 1024 }
    requires few { entries + events < 2 ^ 32 }
    ensures { result ≡ most_sent largest entries events }
{
    let reporting = entries + events;
    MOST_WITHOUT_CONTEXT * (reporting + INTERNALS as u64) + context_room(largest) * reporting
}

fn context_room(largest: u64) -> u64
    requires { largest ≤ 1024 }
    ensures value { result ≡ context_room largest }
    ensures short { result ≤ 1028 }
{
    if largest == 0 {
        0
    } else {
        MOST_OF_LENGTH + largest
    }
}
