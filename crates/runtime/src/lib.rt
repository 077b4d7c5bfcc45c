// The parts of kaori's runtime that lowering writes: operands, constants, instructions, and the function under construction.
#![tactic(auto)]

pub mod function;
pub mod instruction;
pub mod opcode;
pub mod operand;
pub mod operands;
pub mod value;
