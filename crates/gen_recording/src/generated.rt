//! What is generated.

ghost use Rattle.std.specs.Prelude.{◌≡◌, [], List, IfOk, IsTrue, length};
ghost use Rattle.ids_config.specs.Parts.{Parts};
ghost use Rattle.filter_chain.specs.History.{count_of, messages_of, rows_of};
ghost use Rattle.gen_options.specs.Ranges.{is_in_range};
ghost use Rattle.gen_recording.specs.{IsGenerated, IsMade, digest_of, gen_line as line_of, Plan, IsAt, turns_made};

use crate::config::make_config;
use crate::drawing::draw_trace;
use crate::recorder::Recorder;
use filter_chain::Chain;
use gen_options::Options;
use ids_config::Config;
use ids_types::NoMemory;
use sha2::{Digest, Sha256};
use std::alloc::Global;
use std::mem;
use trace_text::Trace;

/// A generated recording: the texts of its three files, and the line that tells of it.
#[derive(Debug, Drop)]
pub struct Generated {
    pub config: String,
    pub trace: Vec<u8>,
    pub journal: Vec<u8>,
    pub line: Vec<u8>,
}

/// The recording of these options.
/// Steps: at most 16,000 rounds, 24,001 turns and 64,160 lines, each turn as `Chain::turn`; the bytes of the three
/// texts; the messages once more for their digest. Memory: may answer want of memory. By: condition `is_in_range`:
/// callers × rounds at most 16,000; read off.
pub fn generate(alloc: Global, options: &Options) -> Result<Generated, NoMemory>
    requires { IsTrue (is_in_range options.now) }
    ensures { IfOk result (IsGenerated options.now) }
{
    let config = make_config(alloc, options)?;
    let trace = draw_trace(alloc, options, &config)?;
    let mut recorder = Recorder::make(alloc, &config)?;
    recorder.recording(alloc, options, &config, &trace)
}

// Each `?` of these functions drops little: what is large is lent to the next.
impl<'t> Recorder<'t> {
    /// Takes the whole trace, and gives the recording.
    fn recording(
        &mut self,
        alloc: Global,
        options: &Options,
        config: &Config,
        trace: &'t Trace,
    ) -> Result<Generated, NoMemory>
        requires made { IsMade options.now config.now trace.now }
        requires new { IsAt config.now [] [] self.old }
        ensures { IfOk result (IsGenerated options.now) }
    {
        self.take_all(config, trace)?;
        Ok(Generated {
            config: config_json::print(alloc, config)?,
            trace: trace_text::print(alloc, trace)?,
            line: self.line(alloc, 4 * options.callers * options.rounds)?,
            journal: mem::replace(&mut self.journal, Vec::new(alloc)),
        })
    }

    /// The line that tells of so many reports, and of what the filter chain gave for them.
    fn line(&self, alloc: Global, reports: u64) -> Result<Vec<u8>, NoMemory>
        ensures { IfOk result (λ line. (config : Parts) (before : List Plan) → IsAt config before [] self.now →
            let turns = turns_made config before in line.items ≡ line_of reports
            (count_of config turns) (length (rows_of config turns)) (digest_of (messages_of config turns))) }
    {
        let records = self.chain.memory().len();
        let digest = digest(&self.tally.transcript.sent);
        make_line(
            alloc,
            reports,
            self.tally.transcript.messages,
            records,
            &digest,
        )
    }
}

/// The SHA-256 digest of the bytes.
#[tactic(auto, unfolding(crate::specs::Generated::digest_of))]
fn digest(bytes: &[u8]) -> [u8; 32]
    ensures { result ≡ digest_of bytes.now }
{
    Sha256::digest(bytes)
}

/// `reports R messages M records K sha256 H`, and a line feed.
fn make_line(
    alloc: Global,
    reports: u64,
    messages: u64,
    records: u16,
    digest: &[u8],
) -> Result<Vec<u8>, NoMemory>
    ensures { IfOk result (λ line. line.items ≡ line_of reports messages records digest.now) }
{
    let digest = hex::encode(alloc, digest)?;
    let text = format!(in alloc;
        "reports {reports} messages {messages} records {records} sha256 {digest}\n"
    )?;
    Ok(text.into_bytes())
}
