// The desk: the image before and the bytes at hand behind it, in one buffer, and room for more. (specs/Desk.antt)
ghost use Rattle.std.specs.Prelude.{◌+◌, ◌≤◌, ◌≡◌, length};
ghost use Rattle.frozen.specs.Desk.{buffer_bytes, Fits, roomed_desk, roomed_bytes, with_more};

use watch::State;

// Room for ten images, which have 24,576 bytes at most: the image before, the bytes at hand, and what is read at once.
pub(crate) const BUFFER_BYTES: usize = 262144;

// The bytes are moved to the start once they end here or behind, where less than three images' room is left.
const MOVE_AT: usize = 200000;

// The state, where the image before starts, where the bytes at hand start, and where they end.
// Places in a lent array and no Vec: memory is fixed, and bytes are read behind `end` while those before it are in use.
// `Fits` is no ghost field: `with_more`, `at_start` and `desk_after` (specs/) build desks of any numbers, and a second record for them would be
// longer than the six clauses.
#[derive(Clone, Copy)]
pub(crate) struct Desk {
    pub(crate) state: State,
    pub(crate) from: usize,
    pub(crate) at: usize,
    pub(crate) end: usize,
}

// The bytes of the desk go to the start of the buffer, once little room is left.
pub(crate) fn make_room(buf: &mut [u8], desk: Desk) -> Desk
    requires { Fits desk (length buf.old) }
    ensures { (result ≡ roomed_desk desk) × (buf.new ≡ roomed_bytes desk buf.old) }
{
    if desk.end < MOVE_AT {
        return desk;
    }
    buf.copy_within(desk.from..desk.end, 0);
    Desk {
        from: 0,
        at: desk.at - desk.from,
        end: desk.end - desk.from,
        ..desk
    }
}

// So many bytes have come behind those at hand.
pub(crate) fn took(desk: Desk, n: usize) -> Desk
    requires { desk.end + n ≤ buffer_bytes }
    ensures { result ≡ with_more desk n }
{
    Desk {
        end: desk.end + n,
        ..desk
    }
}
