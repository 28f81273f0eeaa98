// The row of a turn.
ghost use Rattle.std.specs.Prelude.{◌≡◌, ◌≤◌, length};
ghost use Rattle.std.proofs.lemmas.List.Edits.{sets};
ghost use Rattle.rows.specs.Calls.{line_most};
ghost use Rattle.watch.specs.Calls.{text_of};
ghost use Rattle.watch.specs.Told.{as_turn};

use crate::Turn;

// Writes what a turn says of the frame of this number, and gives its length: nothing where it waits or ends. The buffer has room for
// a line, so that no line is refused.
pub(crate) fn turn(frame: u64, turn: Turn, out: &mut [u8]) -> usize
    requires { line_most ≤ length out.old }
    ensures told { (result ≡ length (text_of frame (as_turn turn))) × (out.new ≡ sets out.old 0 (text_of frame (as_turn turn))) }
    ensures room { result ≤ line_most }
{
    match turn {
        Turn::Row(line) => {
            let kept = line.state.book.kept;
            rows::row(out, frame, line.score, kept, line.total, line.word).unwrap()
        }
        Turn::Refused(refusal) => rows::refused(out, frame, refusal.number()).unwrap(),
        Turn::Ends | Turn::Wait => 0,
    }
}
