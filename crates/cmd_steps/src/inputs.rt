//! Configurations, and the input files of a recording.

ghost use Rattle.cmd_steps.specs.Words.{IfOk, IsFoldable, IsOutcome, Reads, config_in, recorded_in, recorded_of, recording, seen_as};

use crate::journals::{Judged, judge_journal};
use cmd_files::{MAX_CONFIG_BYTES, MAX_JOURNAL_BYTES, Stop, read_file};
use cmd_words::RecordingNames;
use ids_config::Config;
use ids_outside::Shelf;
use std::alloc::Global;

/// A configuration, and a journal of its events, folded.
#[derive(Debug, Drop)]
pub struct Inputs {
    pub config: Config,
    pub journal: Judged,
}

/// Reads a configuration.
/// Steps: CONFIG as by `config_json::read`; one read. Memory: may answer want of memory. Waits: as its shelf.
/// By: `Reads`; read off.
pub fn read_config<'a, H: Shelf>(
    alloc: Global,
    name: &'a str,
    shelf: &mut H,
) -> Result<Config, Stop<&'a str>>
    ensures { Reads (config_in name.now) (seen_as (λ config. config) result)
        (H.shows shelf.old) (H.shows shelf.new) }
{
    let text = read_file(alloc, name, MAX_CONFIG_BYTES, shelf)?;
    Ok(config_json::read(alloc, &text)?)
}

/// Reads the configuration and then the journal; each is judged before the next is read.
/// Steps: CONFIG as by `config_json::read`, JOURNAL as by `journal::read`, its turns as by `chain_plain::outcome`; one
/// read for each. Memory: may answer want of memory. Waits: as its shelf. By: `reads` (`Reads`); read off.
pub fn read_inputs<'a, H: Shelf>(
    alloc: Global,
    names: RecordingNames<'a>,
    shelf: &mut H,
) -> Result<Inputs, Stop<&'a str>>
    ensures reads { Reads (recorded_in (recording names.entry)) (seen_as recorded_of result)
        (H.shows shelf.old) (H.shows shelf.new) }
    ensures folds { IfOk result (λ i. IsOutcome i.config i.journal.history.turns i.journal.folded) }
    ensures foldable { IfOk result (λ i. IsFoldable i.config i.journal.history.turns) }
{
    let config = read_config(alloc, names.config, shelf)?;
    let text = read_file(alloc, names.journal, MAX_JOURNAL_BYTES, shelf)?;
    let journal = judge_journal(alloc, text, &config)?;
    Ok(Inputs { config, journal })
}
