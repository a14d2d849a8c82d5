//! A relay of two pairs, with one feeder.

ghost use Rattle.std.specs.Prelude.{◌≡◌};
ghost use Rattle.ids_reporter.specs.Relays.{IsAt, IsDrainOf};

use ids_reporter::{Drain, Empty, Feeder, Full, MadeRelay, Relay, Taken, make};
use std::sync::Wait;

/// How the first three puts of a feeder end.
fn three_puts<R: Wait>(rt: &R, relay: &Relay, feeder: &mut Feeder) -> [Result<(), Full>; 3]
    requires { IsAt relay.now 0 0 feeder.old }
{
    [
        feeder.put(rt, relay),
        feeder.put(rt, relay),
        feeder.put(rt, relay),
    ]
}

/// What three takes give.
fn three_takes<R: Wait>(rt: &R, relay: &Relay, drain: &mut Drain) -> [Result<Taken, Empty>; 3]
    requires { IsDrainOf relay.now drain.old }
{
    [
        drain.take(rt, relay),
        drain.take(rt, relay),
        drain.take(rt, relay),
    ]
}

/// A pair of the one feeder.
fn pair(index: u64) -> Taken {
    Taken { source: 0, index }
}

/// Whether the relay takes two pairs and is full at the third, and then gives these two and is empty.
pub fn is_full_at_the_third<R: Wait + AllocGlobal>(rt: &R) -> Option<bool> {
    let MadeRelay {
        relay,
        mut drain,
        mut feeders,
    } = make(rt.alloc(), 2, 1).ok()?;
    let feeder = feeders.first_mut()?;
    let puts = three_puts(rt, &relay, feeder);
    let takes = three_takes(rt, &relay, &mut drain);
    Some(puts == [Ok(()), Ok(()), Err(Full)] && takes == [Ok(pair(0)), Ok(pair(1)), Err(Empty)])
}
