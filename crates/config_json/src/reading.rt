//! Reading a configuration from its bytes.

ghost use Rattle.serde_json.specs.View.{view};
ghost use Rattle.config_json.specs.Configured.{config_in, configuration, Tells};

use crate::fault::JsonFault;
use crate::parts::read_parts;
use crate::shape::check_shape;
use ids_config::{Config, ConfigFault, ConfigPlace};
use serde_json::Value;
use std::alloc::Global;

/// The configuration that the bytes are the text of, or the first fault.
/// Steps: the bytes of the text, and each member among those of its object: log; a name is compared with at most 12
/// rows. Memory: may answer want of memory (`JsonFault`). By: read off; serde_json's part by measurement
/// (docs/SPEED.md).
#[tactic(auto, using(crate::proofs::PrintedLemmas::utf8))]
pub fn read(alloc: Global, bytes: &[u8]) -> Result<Config, JsonFault>
    ensures { Tells (configuration bytes.now) result }
{
    match Value::from_slice(alloc, bytes) {
        Ok(value) => read_tree(alloc, &value),
        Err(error) if error.is_memory() => Err(JsonFault::NoMemory),
        Err(_) => Err(JsonFault::Config(ConfigFault {
            number: 1,
            place: ConfigPlace::Top,
        })),
    }
}

fn read_tree(alloc: Global, value: &Value) -> Result<Config, JsonFault>
    ensures { Tells (config_in (view value.now)) result }
{
    check_shape(value)?;
    let parts = read_parts(alloc, value)?;
    Ok(Config::check(parts)?)
}
