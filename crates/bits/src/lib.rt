// Rows of bits in bytes, as in a PBM row: definitions in specs/, laws in proofs/. The code counts ones.

#![tactic(auto)]

pub mod ones;
