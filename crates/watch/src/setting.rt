// The program's setting: SCOPE, Program. The same numbers stand in specs/Setting.antt for the statements.

// Pixels that differ by no more are the same.
pub const ALLOWANCE: u8 = 12;

// L, n and D of its book, and the bytes of its ring.
pub const BOUND: u64 = 600;

pub const LENGTH: u64 = 1440;

pub const TOLERANCE: u64 = 3600;

pub const RING_BYTES: usize = 30;

// What its verdict is for.
pub const WINDOW: u64 = 30;

pub const AMOUNT: u64 = 3600;
