//! Messages: the bytes of some, worked out by hand from the layout, and the text of a fault.

use arrayvec::ArrayVec;
use ids_frame::{BadMessage, Context, FrameFault, Message, encode};
use std::test::Fail;

/// Whether the manager's message with this context of at most 1,089 bytes is spelled in so many bytes, the first of which
/// are these.
fn is_spelled(context: &[u8], front: &[u8], len: usize) -> bool {
    if context.len() > 1089 {
        return false;
    }
    let context = Some(Context::of(context));
    let Some(message) = Message::make(1, 18, 3, 42, 1, 0, None, context, None) else {
        return false;
    };
    let mut out = ArrayVec::new();
    let written = encode(&message, &mut out).is_ok();
    written && out.len() == len && out.as_slice().starts_with(front)
}

#[test]
fn the_manager_sends_short_forms_up_to_127_bytes(rt: HostRuntime) {
    let bytes = [7; 128];
    let short = b"\x11\x04\x83\x00\x2a\x00\x01\x00\x7f\x07";
    assert!(rt; is_spelled(&bytes[..127], short, 136));
    let long = b"\x11\x04\x83\x00\x2a\x00\x01\x00\x80\x00\x00\x80\x07";
    assert!(rt; is_spelled(&bytes, long, 140));
}

#[test]
fn a_message_has_at_most_1100_bytes(rt: HostRuntime) {
    let bytes = [7; 1089];
    let front = b"\x11\x04\x83\x00\x2a\x00\x01\x00\x80\x00\x04\x40\x07";
    assert!(rt; is_spelled(&bytes[..1088], front, 1100));
    assert!(rt; !is_spelled(&bytes, b"", 1101));
}

#[test]
fn faults_have_texts(rt: HostRuntime) -> Result<(), Fail> {
    let fault = FrameFault::UnknownPart;
    let bad = BadMessage { at: 11, fault };
    let text = format!(in rt.alloc(); "{}", bad)?;
    assert_eq!(rt;
        text.as_str(),
        "at byte 11: the message has an unknown part"
    );
    Ok(())
}
