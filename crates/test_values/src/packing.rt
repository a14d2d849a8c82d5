//! Messages packed into units, and taken out of a stream.

use ids_bundle::{Count, Fed, Unpacker, count, pack};
use std::alloc::Global;
use std::test::*;

/// A message without context data.
const MESSAGE: [u8; 8] = [0x10, 0x04, 0x83, 0, 0x2a, 0, 1, 0];

// Nine such messages.
fn nine(alloc: Global) -> Result<Vec<u8>, Fail> {
    let mut all = Vec::new(alloc);
    for _ in 0..9 {
        all.extend_from_slice(&MESSAGE)?;
    }
    Ok(all)
}

// Their units of at most 64 bytes.
fn units_of_nine(alloc: Global) -> Result<Vec<u8>, Fail> {
    Ok(pack(alloc, 64, &nine(alloc)?).ok().ok_or("packed")?)
}

#[test]
fn units_before_a_cut_are_counted(rt: HostRuntime) -> Result<(), Fail> {
    let units = units_of_nine(rt.alloc())?;
    let (_, cut) = units.split_last().ok_or("a byte")?;
    assert_eq!(rt;
        count(cut),
        Count {
            units: 1,
            messages: 8
        }
    );
    Ok(())
}

#[test]
fn a_stream_gives_its_units_byte_by_byte(rt: HostRuntime) -> Result<(), Fail> {
    let units = units_of_nine(rt.alloc())?;
    let mut unpacker = Unpacker::make(rt.alloc()).ok().ok_or("memory")?;
    let mut bodies = Vec::new(rt.alloc());
    let mut lengths = Vec::new(rt.alloc());
    for piece in units.chunks(1) {
        if unpacker.feed(piece) != Fed::More {
            lengths.push(unpacker.body().len())?;
        }
        bodies.extend_from_slice(unpacker.body())?;
    }
    assert_eq!(rt; lengths.as_slice(), [64, 8].as_slice());
    assert!(rt; bodies == nine(rt.alloc())?);
    assert_eq!(rt; unpacker.feed(&units), Fed::Unit { used: 68 });
    Ok(())
}

#[test]
fn bytes_that_are_no_unit_end_a_stream(rt: HostRuntime) -> Result<(), Fail> {
    let mut unpacker = Unpacker::make(rt.alloc()).ok().ok_or("memory")?;
    assert_eq!(rt; unpacker.feed(&[0, 1, 0]), Fed::More);
    assert_eq!(rt; unpacker.pending(), 3);
    assert_eq!(rt;
        unpacker.feed(&[8, 0x10, 0x04, 0x83, 0, 0x2a, 0, 1, 1, 7]),
        Fed::Unit { used: 9 }
    );
    assert_eq!(rt; unpacker.feed(&[0, 0, 0, 0, 1]), Fed::Bad);
    assert_eq!(rt; unpacker.pending(), 4);
    assert_eq!(rt; unpacker.feed(&units_of_nine(rt.alloc())?), Fed::Bad);
    Ok(())
}
