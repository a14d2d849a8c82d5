//! The unit of a run of messages: written, and known again.

ghost use Rattle.std.specs.Prelude.{◌≡◌, ◌≤◌, ◌<◌, ◌^◌, ◌++◌, ◌↔◌, ◌+◌, IsTrue, OnOk, length, drop};
ghost use Rattle.std.specs.Int.{w16, to_be_bytes};
ghost use Rattle.ids_frame.specs.Bytes.{AreBytes};
ghost use Rattle.ids_bundle.specs.Units.{AreSoMany, IsBody, IsUnit, unit_size};

use ids_frame::decode;
use std::alloc::AllocError;

/// How many bytes of a unit stand before its messages.
pub(crate) const HEAD: usize = 4;

/// How many units there are, and how many messages they have.
#[derive(Clone, Copy, Debug, PartialEq, Eq)]
pub struct Count {
    pub units: u64,
    pub messages: u64,
}

/// What was put into a buffer: how many bytes the unit has, at the front, and how many bytes of messages it took.
#[derive(Clone, Copy, Debug, PartialEq, Eq)]
pub struct UnitPut {
    pub unit: usize,
    pub taken: usize,
}

/// Writes a unit: so many messages, which have these bytes.
pub(crate) fn push_unit(out: &mut Vec<u8>, number: u16, body: &[u8]) -> Result<(), AllocError>
    requires { length body.now < 2 ^ 16 }
    ensures { OnOk result (out.new.items ≡ out.old.items
        ++ (to_be_bytes w16 number ++ to_be_bytes w16 (length body.now) ++ body.now)) }
{
    out.extend_from_slice(&head(number, body))?;
    out.extend_from_slice(body)
}

/// Writes a unit to the front of a buffer that is long enough: so many messages, which have these bytes.
pub(crate) fn write_unit(unit: &mut [u8], number: u16, body: &[u8])
    requires short { length body.now < 2 ^ 16 }
    requires room { 4 + length body.now ≤ length unit.old }
    ensures { unit.new ≡ (to_be_bytes w16 number ++ to_be_bytes w16 (length body.now) ++ body.now)
        ++ drop (4 + length body.now) unit.old }
{
    unit[..HEAD].copy_from_slice(&head(number, body));
    unit[HEAD..HEAD + body.len()].copy_from_slice(body);
}

/// The bytes of a unit before its messages: how many they are, and how many bytes they have.
fn head(number: u16, body: &[u8]) -> [u8; HEAD]
    requires { length body.now < 2 ^ 16 }
    ensures { result ≡ to_be_bytes w16 number ++ to_be_bytes w16 (length body.now) }
{
    let [a, b] = number.to_be_bytes();
    let [c, d] = (body.len() as u16).to_be_bytes();
    [a, b, c, d]
}

/// How many bytes the unit has that these bytes begin with, as far as they tell.
pub(crate) fn unit_size(bytes: &[u8]) -> usize
    ensures value { result ≡ unit_size bytes.now }
    ensures most { result ≤ 65539 }
{
    match bytes {
        [_, _, high, low, ..] => HEAD + u16::from_be_bytes([*high, *low]) as usize,
        _ => HEAD,
    }
}

/// Whether the bytes are a unit, and nothing else.
pub(crate) fn is_unit(bytes: &[u8]) -> bool
    ensures unit { IsTrue result ↔ IsUnit bytes.now }
    // Who holds them in a `Vec` knows it from here.
    ensures bytes { AreBytes bytes.now }
{
    let [a, b, c, d, body @ ..] = bytes else {
        return false;
    };
    is_body(
        u16::from_be_bytes([*a, *b]),
        u16::from_be_bytes([*c, *d]),
        body,
    )
}

/// Whether these bytes stand in a unit after a head that says so many messages and bytes.
fn is_body(number: u16, size: u16, bytes: &[u8]) -> bool
    ensures { IsTrue result ↔ IsBody number size bytes.now }
{
    number > 0 && size as usize == bytes.len() && are_messages(number, bytes)
}

/// Whether the bytes are so many messages, and nothing else.
fn are_messages(number: u16, bytes: &[u8]) -> bool
    ensures { IsTrue result ↔ AreSoMany number bytes.now }
{
    let mut rest = bytes;
    for _ in 0..number {
        let Ok((_, size)) = decode(rest) else {
            return false;
        };
        rest = &rest[size..];
    }
    rest.is_empty()
}
