// A message goes through its bytes.
ghost use Rattle.pr_inval.specs.Messages.{IsMessage};
ghost use Rattle.pr_inval.specs.declared.msg.Msg.{Msg};
ghost use Rattle.pr_wire.specs.Feeding.{new_feed, pushed};
ghost use Rattle.pr_wire.specs.Frames.{IsFrame};
ghost use Rattle.pr_wire.specs.Pieces.{rest_of};
ghost use Rattle.pr_wire.specs.declared.format.Format.{Format};
ghost use Rattle.std.specs.Prelude.{◌≡◌, ◌<◌, ◌++◌, IfOk, length};

use crate::decoding::decode;
use crate::feed::Feed;
use crate::pieces::Pieces;
use pr_inval::Msg;
use pr_stamps::NoMemory;
use std::alloc::Global;

// Nearly every frame is shorter.
const PIECE: usize = 512;

/// The message that its own frame gives (docs/WIRE.md), in time linear in the frame. It takes memory for what is
/// decoded, and for a frame of 512 bytes or more that is not made whole (`Pieces::whole`). One that is, is decoded from
/// where it was made.
pub fn through_bytes(alloc: Global, msg: &Msg) -> Result<Msg, NoMemory>
    requires { IsMessage msg.now }
    ensures { IfOk result (λ m. m ≡ msg.now) }
{
    let mut pieces = Pieces::empty();
    pieces.begin(msg);
    match pieces.whole() {
        Some(frame) => decode(alloc, frame),
        None => through_pieces(alloc, &mut pieces),
    }
}

// The message of which the pieces are just the frame. The room for a piece is cleared here alone.
#[inline(never)]
fn through_pieces(alloc: Global, pieces: &mut Pieces) -> Result<Msg, NoMemory>
    requires { (m : Msg) × IsFrame Format.Two m (rest_of pieces.old) }
    ensures { (m : Msg) → IsFrame Format.Two m (rest_of pieces.old) → IfOk result (λ n. n ≡ m) }
{
    let mut piece = [0; PIECE];
    let len = pieces.next(&mut piece);
    if len < PIECE {
        return decode(alloc, &piece[..len]);
    }
    fed(alloc, &mut piece, pieces)?.only_message()
}

// A feed of the bytes in the piece, and of all that is left behind them, for which the piece is used again.
fn fed(alloc: Global, piece: &mut [u8], pieces: &mut Pieces) -> Result<Feed, NoMemory>
    requires { 0 < length piece.old }
    ensures { IfOk result (λ feed. feed ≡ pushed (new_feed 18446744073709551615) (piece.old ++ rest_of pieces.old)) }
{
    let mut feed = Feed::new(alloc, u64::MAX);
    let mut len = piece.len();
    while len > 0 {
        feed.push(&piece[..len])?;
        len = pieces.next(piece);
    }
    Ok(feed)
}
