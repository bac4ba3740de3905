//! Instruction words of 32 bits: encoding and decoding, which are inverse to each other.
#![tactic(auto)]

pub mod codec;
mod emit;
pub mod instruction;
pub mod list;
pub mod mnemonic;
