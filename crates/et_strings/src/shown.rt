//! What arguments are shown as (JLS 5.1.11).
ghost use Rattle.std.specs.Prelude.{◌≡◌};
ghost use Rattle.et_event.specs.TextRows.{shown};
ghost use Rattle.et_state.specs.State.{Kept};
ghost use Rattle.et_strings.specs.Pieces.{IsPlainPiece, units_of_piece};

use et_base::{ObjectId, Value, to_char};
use et_program::Shown;

/// A text that an argument is shown as.
#[derive(Clone, Copy)]
pub(crate) enum Piece {
    /// That of an object.
    Text(ObjectId),
    /// A number in decimal.
    Number(i64),
    /// One unit.
    Single(u16),
    /// A word, in ASCII.
    Word(&'static [u8]),
}

/// What an argument is shown as.
pub(crate) fn piece_of(kind: Shown, value: Value) -> Piece
    ensures units { (s : Kept) → units_of_piece s result ≡ shown s kind value }
    ensures plain { IsPlainPiece result }
{
    match (kind, value) {
        (Shown::Text, Value::Ref(o)) => Piece::Text(o),
        (Shown::Text, _) => Piece::Word(b"null"),
        (Shown::Int, Value::Int(n)) => Piece::Number(n as i64),
        (Shown::Long, Value::Long(n)) => Piece::Number(n),
        (Shown::Char, Value::Int(n)) => Piece::Single(to_char(n) as u16),
        (Shown::Truth, Value::Int(0)) => Piece::Word(b"false"),
        (Shown::Truth, Value::Int(_)) => Piece::Word(b"true"),
        (Shown::Int | Shown::Long | Shown::Char | Shown::Truth, _) => Piece::Word(b""),
    }
}
