//! The calls of each round.

use crate::replays::told::told_of;
use crate::written::bytes_of;
use std::test::Fail;
use trace_replay::OpenGate;

/// Two callers, each with a line in each of two rounds, the first caller with two in the second.
const TWO_ROUNDS: &str = "N/R 0 0 1 - -/R 1 0 1 - -/E 5/N/R 0 0 1 - -/R 0 0 1 - -/R 1 0 1 - -/E 9/";

#[test]
fn each_round_has_its_own_calls(rt: HostRuntime) -> Result<(), Fail> {
    let alloc = rt.alloc();
    let config = r#"{"form":1,"instance":18,"callers":2,"ring":8,"events":[{"id":42,"sensor":3}]}"#;
    let told = told_of(&rt, alloc, config, &bytes_of(alloc, TWO_ROUNDS)?, &OpenGate)?;
    assert_eq!(rt; told.calls.as_str(), "5: 0.0 1.0\n9: 0.1 0.2 1.1\n9:\n");
    assert_eq!(rt; told.rests.as_slice(), [0, 1, 1, 2].as_slice());
    assert_eq!(rt;
        told.at_rests.as_slice(),
        [1, 1, 1, 1, 3, 2, 3, 2].as_slice()
    );
    Ok(())
}
