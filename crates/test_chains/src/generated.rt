//! A generated journal. How many messages and records it gives, and the digest of the messages, come from two programs
//! of others.

use crate::both::told_by_both;
use gen_options::Options;
use gen_recording::generate;
use sha2::{Digest, Sha256};
use std::test::Fail;

#[test]
fn a_generated_history_gives_the_same_by_both_chains(rt: HostRuntime) -> Result<(), Fail> {
    let alloc = rt.alloc();
    let options = Options {
        start: 1,
        callers: 6,
        rounds: 100,
        events: 40,
    };
    assert!(rt; options.is_in_range());
    let made = generate(alloc, &options)?;
    let told = told_by_both(alloc, made.config.as_str(), &made.journal)?;
    let records = told.memory.iter().filter(|&&byte| byte == b'\n').count();
    let digest = hex::encode(alloc, &Sha256::digest(&told.tally.transcript.sent))?;
    assert_eq!(rt; told.tally.transcript.messages, 409);
    assert_eq!(rt; records, 11);
    assert_eq!(rt;
        digest.as_str(),
        "5541cdac777b9df4705d26fea30ab39dea1a8644433e4e978a2a53b3ab6008cd"
    );
    Ok(())
}
