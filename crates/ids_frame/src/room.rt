//! Where a message is spelled: an `ArrayVec`, or the output of a turn.
ghost use Rattle.std.specs.Prelude.{◌≡◌, ◌≤◌, ◌++◌, [], ℕ, List, length};
ghost use Rattle.arrayvec.specs.ArrayVec.{Extends};
ghost use Rattle.ids_types.specs.Output.{has_put};
ghost use Rattle.ids_frame.specs.Room.{PutsPiece, room_in, nothing_put, both_put, no_piece, two_pieces};

use crate::writing::MAX_BYTES;
use arrayvec::ArrayVec;
use ids_types::TurnOut;

/// Room that bytes are put into, one piece after the other.
pub trait Room {
    /// How many more bytes there is room for.
    ghost left: { Self → ℕ };

    /// The one room became the other by these bytes more.
    ghost extends: { Self → List ℕ → Self → Type 0 };

    /// Puts a piece after those that are there.
    /// Steps: the bytes of the piece. By: `PutsPiece`; condition: room for it; read off.
    fn put(&mut self, piece: &[u8])
        requires { length piece.now ≤ left self.old }
        ensures { PutsPiece left extends self.old piece.now self.new };

    /// No bytes leave a room as it is.
    ghost nothing: { (room : Self) → extends room [] room };

    /// Two pieces are one, the second after the first.
    ghost both: { (old mid new : Self) (first second : List ℕ) → extends old first mid → extends mid second new →
        extends old (first ++ second) new };
}

impl Room for ArrayVec<u8, MAX_BYTES> {
    ghost left = { room_in };

    ghost extends = { Extends };

    fn put(&mut self, piece: &[u8]) {
        prove!(piece.len() <= self.remaining_capacity());
        self.try_extend_from_slice(piece).unwrap();
    }

    ghost nothing = { nothing_put };

    ghost both = { both_put };
}

impl Room for TurnOut {
    ghost left = { λ out. out.sent_left };

    ghost extends = { λ old piece new. new ≡ has_put piece old };

    fn put(&mut self, piece: &[u8]) {
        TurnOut::put(self, piece);
    }

    ghost nothing = { no_piece };

    ghost both = { two_pieces };
}
