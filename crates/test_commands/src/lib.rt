//! The tests of the commands that no command over files can show: calls that fail, want of memory, gates, and counts of
//! calls; and those of replays. The tables of tools/commands.d have all others.
//!
//! Layer 12, tests and times. Over `idsm_run`, `ids_outside`, `memory_disk` and `trace_replay`. What a run over files and
//! disks in memory leaves was worked out by hand, and so were the histories of traces. Statuses, limits and places on a
//! disk stand here as numbers.
#![tactic(auto)]

#[cfg(test)]
mod calls;
#[cfg(test)]
mod crashing;
#[cfg(test)]
mod disks;
#[cfg(test)]
mod failing;
#[cfg(test)]
mod failing_disks;
#[cfg(test)]
mod meeting;
#[cfg(test)]
mod replays;
#[cfg(test)]
mod shelves;
#[cfg(test)]
mod steady;
#[cfg(test)]
mod tables;
#[cfg(test)]
mod telling;
#[cfg(test)]
mod wanting;
#[cfg(test)]
mod written;
