//! A message's spelling, written part by part.
ghost use Rattle.std.specs.Prelude.{◌≡◌, ◌≤◌, ◌↔◌, length, IsOk, OnOk, OnErr, IfSome, option_copied};
ghost use Rattle.ids_frame.specs.{most_bytes, flag, header, event_part, stamp_part, length_in, context_part, signature_part, spelling};
ghost use Rattle.ids_frame.specs.Room.{PutsPiece};

use crate::context::{Context, Form};
use crate::message::Message;
use crate::room::Room;
use arrayvec::ArrayVec;
use ids_types::Stamp;

/// How many bytes `encode` writes at most.
pub const MAX_BYTES: usize = 1100;

/// The message's spelling has more than `MAX_BYTES` bytes.
#[derive(Clone, Copy, Debug, PartialEq, Eq)]
pub struct TooLong;

/// Writes the message's spelling in place of what `out` held, or leaves `out` as it was.
/// Steps: the bytes of the spelling, at most 1,100. By: `fits`; type `ArrayVec<u8, MAX_BYTES>`; read off.
pub fn encode(message: &Message<'_>, out: &mut ArrayVec<u8, MAX_BYTES>) -> Result<(), TooLong>
    ensures fits { IsOk result ↔ (length (spelling message.now) ≤ 1100) }
    ensures ok { OnOk result (out.new.items ≡ spelling message.now) }
    ensures err { OnErr result (out.new.items ≡ out.old.items) }
{
    if message.spelling_len() > MAX_BYTES as u64 {
        return Err(TooLong);
    }
    out.clear();
    spell(message, out);
    Ok(())
}

/// Puts the message's spelling after what was written before.
/// Steps: the bytes of the spelling. By: `PutsPiece`; condition: room for them; read off.
pub fn spell<R: Room>(message: &Message<'_>, room: &mut R)
    requires { length (spelling message.now) ≤ R.left room.old }
    ensures { PutsPiece R.left R.extends room.old (spelling message.now) room.new }
{
    room.put(&event_of(message));
    put_stamp(message.stamp(), room);
    put_context(&message.context(), room);
    put_signature(message.signature(), room);
}

/// The event part, in its eight bytes.
fn event_of(message: &Message<'_>) -> [u8; 8]
    ensures { result ≡ event_part message.now }
{
    let place = message.instance() * 64 + u16::from(message.sensor());
    let [place_high, place_low] = place.to_be_bytes();
    let [event_high, event_low] = message.event().to_be_bytes();
    let [count_high, count_low] = message.count().to_be_bytes();
    [
        message.version() * 16 + header_of(message),
        place_high,
        place_low,
        event_high,
        event_low,
        count_high,
        count_low,
        message.reserved(),
    ]
}

fn header_of(message: &Message<'_>) -> u8
    ensures value { result ≡ header message.now }
    ensures three_bits { result ≤ 7 }
{
    flag_of(&message.context()) + 2 * flag_of(&message.stamp()) + 4 * flag_of(&message.signature())
}

fn flag_of<T>(part: &Option<T>) -> u8
    ensures value { result ≡ flag part.now }
    ensures small { result ≤ 1 }
{
    u8::from(part.is_some())
}

fn put_stamp<R: Room>(stamp: Option<Stamp>, room: &mut R)
    requires { length (stamp_part stamp) ≤ R.left room.old }
    ensures { PutsPiece R.left R.extends room.old (stamp_part stamp) room.new }
{
    if let Some(stamp) = stamp {
        room.put(&stamp.0.to_be_bytes());
    }
}

fn put_context<R: Room>(context: &Option<Context<'_>>, room: &mut R)
    requires { length (context_part context.now) ≤ R.left room.old }
    ensures { PutsPiece R.left R.extends room.old (context_part context.now) room.new }
{
    if let Some(context) = context {
        put_length(context.form(), context.bytes().len(), room);
        room.put(context.bytes());
    }
}

fn put_length<R: Room>(form: Form, len: usize, room: &mut R)
    requires fits { len ≤ most_bytes form }
    requires room { length (length_in form len) ≤ R.left room.old }
    ensures { PutsPiece R.left R.extends room.old (length_in form len) room.new }
{
    match form {
        Form::Short => room.put(&[len as u8]),
        Form::Long => room.put(&(0x8000_0000 + len as u32).to_be_bytes()),
    }
}

fn put_signature<R: Room>(signature: Option<&[u8]>, room: &mut R)
    requires short { IfSome signature (λ bytes. length bytes.now ≤ 65535) }
    requires room { length (signature_part (option_copied signature)) ≤ R.left room.old }
    ensures { PutsPiece R.left R.extends room.old (signature_part (option_copied signature.entry)) room.new }
{
    if let Some(bytes) = signature {
        room.put(&(bytes.len() as u16).to_be_bytes());
        room.put(bytes);
    }
}
