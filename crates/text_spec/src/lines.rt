//! Texts that are read line by line.

ghost use Rattle.std.specs.Prelude.{◌≡◌};
ghost use Rattle.text_spec.specs.{IfOk, Reads, Took, fault_at, fault_behind, Grammar, after_line, past_in};

use crate::fault::{LineFault, TextFault};
use crate::pieces::cut;
use ids_config::asks;

/// What takes the lines of a text, one after another.
pub trait LineReader: Drop {
    /// What the lines so far tell, what one of them tells, and what decides how they are read.
    ghost Past: { Type 0 };

    ghost Line: { Type 0 };

    ghost Rules: { Type 0 };

    ghost grammar: { Rules → Grammar Past Line };

    ghost rules: { Self → Rules };

    ghost past: { Self → Past };

    /// Takes a line, or tells its first fault.
    /// Steps: the readers of journal and trace_text: the bytes of the line. At the first loss that of journal puts all
    /// entries so far into an ordered set (log each), and looks each loss up there (log). Memory: may answer want of
    /// memory (`LineFault`). Waits: as its reader; these: no. By: read off; `took` (`Took`).
    fn line(&mut self, line: &[u8]) -> Result<(), LineFault>
        ensures took { Took (past self.new)
            (after_line (grammar (rules self.old)) (past self.old) line.now) result }
        ensures same { rules self.new ≡ rules self.old };

    /// The fault of a text that ends after the lines so far.
    /// Steps: the readers of journal and trace_text: constant. Waits: as its reader; these: no.
    fn end(&self) -> Result<(), u8>
        ensures { result ≡ (grammar (rules self.now)).end_fault (past self.now) };
}

/// The reader after the lines of a text, each of which is ended, or the first bad line and its first fault.
/// Steps: the bytes of the text, and one `line` of its reader for each line. Memory: may answer want of memory
/// (`TextFault`), only as its reader. Waits: as its reader. By: `exact` (`Reads`); read off; each piece is `shorter`.
pub fn read_lines<R: LineReader>(reader: R, text: &[u8]) -> Result<R, TextFault>
    ensures exact { Reads R.past (past_in (R.grammar (R.rules reader)) (R.past reader) text.now) result }
    ensures same { IfOk result (λ r. R.rules r ≡ R.rules reader) }
{
    let mut reader = reader;
    let mut number = 1u64;
    let mut rest = text;
    'lines: loop {
        let (line, behind) = cut(rest, b'\n');
        let Some(behind) = behind else {
            return match check_end(&reader, line) {
                Ok(()) => Ok(reader),
                Err(fault) => Err(at_line(number, LineFault::Fault(fault))),
            };
        };
        match reader.line(line) {
            Ok(()) => {}
            Err(fault) => return Err(at_line(number, fault)),
        }
        number += 1;
        rest = behind;
    }
}

/// After the last line feed nothing may stand, and the reader decides whether a text may end there.
fn check_end<R: LineReader>(reader: &R, rest: &[u8]) -> Result<(), u8>
    ensures { result ≡
        fault_behind rest.now ((R.grammar (R.rules reader.now)).end_fault (R.past reader.now)) }
{
    asks(1, rest.is_empty())?;
    reader.end()
}

/// Why the line of this number was not taken.
fn at_line(line: u64, fault: LineFault) -> TextFault
    ensures { result ≡ fault_at line fault }
{
    match fault {
        LineFault::Fault(number) => TextFault::Line { line, number },
        LineFault::NoMemory => TextFault::NoMemory,
    }
}
