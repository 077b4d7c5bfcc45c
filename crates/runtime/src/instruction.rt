// Instructions (kaori's runtime/instruction.rs): the 55 variants in order, fields in declared order.
ghost use Rattle.std.specs.Prelude.{◌≡◌};
ghost use Rattle.runtime.specs.Instruction.{has_destination, offset_word};

use crate::opcode::Opcode;
use crate::operands::{Const, Reg};

// The words of an instruction record.
pub const INSTRUCTION_WORDS: usize = 4;

// An offset, as its two's-complement word.
pub type Offset = u32;

#[derive(Drop)]
pub enum Instruction {
    Add {
        dest: Reg,
        src1: Reg,
        src2: Reg,
    },
    AddK {
        dest: Reg,
        src1: Reg,
        src2: Const,
    },
    Subtract {
        dest: Reg,
        src1: Reg,
        src2: Reg,
    },
    SubtractRK {
        dest: Reg,
        src1: Reg,
        src2: Const,
    },
    SubtractKR {
        dest: Reg,
        src1: Const,
        src2: Reg,
    },
    Multiply {
        dest: Reg,
        src1: Reg,
        src2: Reg,
    },
    MultiplyK {
        dest: Reg,
        src1: Reg,
        src2: Const,
    },
    Divide {
        dest: Reg,
        src1: Reg,
        src2: Reg,
    },
    DivideRK {
        dest: Reg,
        src1: Reg,
        src2: Const,
    },
    DivideKR {
        dest: Reg,
        src1: Const,
        src2: Reg,
    },
    Modulo {
        dest: Reg,
        src1: Reg,
        src2: Reg,
    },
    ModuloRK {
        dest: Reg,
        src1: Reg,
        src2: Const,
    },
    ModuloKR {
        dest: Reg,
        src1: Const,
        src2: Reg,
    },
    Equal {
        dest: Reg,
        src1: Reg,
        src2: Reg,
    },
    EqualK {
        dest: Reg,
        src1: Reg,
        src2: Const,
    },
    NotEqual {
        dest: Reg,
        src1: Reg,
        src2: Reg,
    },
    NotEqualK {
        dest: Reg,
        src1: Reg,
        src2: Const,
    },
    Less {
        dest: Reg,
        src1: Reg,
        src2: Reg,
    },
    LessRK {
        dest: Reg,
        src1: Reg,
        src2: Const,
    },
    LessKR {
        dest: Reg,
        src1: Const,
        src2: Reg,
    },
    LessEqual {
        dest: Reg,
        src1: Reg,
        src2: Reg,
    },
    LessEqualRK {
        dest: Reg,
        src1: Reg,
        src2: Const,
    },
    LessEqualKR {
        dest: Reg,
        src1: Const,
        src2: Reg,
    },
    Not {
        dest: Reg,
        src: Reg,
    },
    Negate {
        dest: Reg,
        src: Reg,
    },
    Move {
        dest: Reg,
        src: Reg,
    },
    LoadConst {
        dest: Reg,
        src: Const,
    },
    CreateMap {
        dest: Reg,
    },
    SetProperty {
        object: Reg,
        key: Reg,
        value: Reg,
    },
    SetPropertyRK {
        object: Reg,
        key: Reg,
        value: Const,
    },
    SetPropertyKR {
        object: Reg,
        key: Const,
        value: Reg,
    },
    SetPropertyKK {
        object: Reg,
        key: Const,
        value: Const,
    },
    GetProperty {
        dest: Reg,
        object: Reg,
        key: Reg,
    },
    GetPropertyK {
        dest: Reg,
        object: Reg,
        key: Const,
    },
    SetElement {
        object: Reg,
        key: Reg,
        value: Reg,
    },
    CreateClosure {
        dest: Reg,
        captures: u32,
        src: u32,
    },
    CreateRef {
        dest: Reg,
        src: Reg,
    },
    DerefSet {
        dest: Reg,
        src: Reg,
    },
    Deref {
        dest: Reg,
        src: Reg,
    },
    Call {
        dest: Reg,
        src: Reg,
        arity: u32,
    },
    Return {
        src: Reg,
    },
    Jump {
        offset: Offset,
    },
    JumpIfFalse {
        src: Reg,
        offset: Offset,
    },
    JumpIfTrue {
        src: Reg,
        offset: Offset,
    },
    JumpIfLess {
        src1: Reg,
        src2: Reg,
        offset: Offset,
    },
    JumpIfLessRK {
        src1: Reg,
        src2: Const,
        offset: Offset,
    },
    JumpIfLessKR {
        src2: Reg,
        src1: Const,
        offset: Offset,
    },
    JumpIfLessEqual {
        src1: Reg,
        src2: Reg,
        offset: Offset,
    },
    JumpIfLessEqualRK {
        src1: Reg,
        src2: Const,
        offset: Offset,
    },
    JumpIfLessEqualKR {
        src2: Reg,
        src1: Const,
        offset: Offset,
    },
    JumpIfEqual {
        src1: Reg,
        src2: Reg,
        offset: Offset,
    },
    JumpIfEqualK {
        src1: Reg,
        src2: Const,
        offset: Offset,
    },
    JumpIfNotEqual {
        src1: Reg,
        src2: Reg,
        offset: Offset,
    },
    JumpIfNotEqualK {
        src1: Reg,
        src2: Const,
        offset: Offset,
    },
    CaptureValue {
        src: Reg,
    },
}

// Whether `patch_arguments` lists a kind: its first field is then a destination. The kind is a word of any buffer, and need be no opcode's number:
// for a match an `Opcode` would have to be read back of it, with 55 arms.
#[tactic(auto, unfolding(crate::specs::Instruction::has_destination))]
pub fn has_destination(kind: u32) -> bool
    ensures { result ≡ has_destination kind }
{
    // Add to CreateMap; GetProperty; CreateClosure and CreateRef; Deref and Call.
    kind < (Opcode::SetProperty as u32)
        || ((Opcode::GetProperty as u32) <= kind && kind < (Opcode::GetPropertyK as u32))
        || ((Opcode::CreateClosure as u32) <= kind && kind < (Opcode::DerefSet as u32))
        || ((Opcode::Deref as u32) <= kind && kind < (Opcode::Return as u32))
}

// Which word of a jump is its offset; 0, the kind's own word, for a kind that is no jump. The kind is, here too, a word of any buffer,
// and no `Opcode` is read back of it. No `Option`: `put_offset` and its definition write for any kind, so each would say `unwrap_or(0)`.
#[tactic(auto, unfolding(crate::specs::Instruction::offset_word))]
pub fn offset_word(kind: u32) -> usize
    ensures { result ≡ offset_word kind }
{
    // Jump; JumpIfFalse and JumpIfTrue; the ten fused jumps.
    if kind < (Opcode::Jump as u32) {
        0
    } else if kind < (Opcode::JumpIfFalse as u32) {
        1
    } else if kind < (Opcode::JumpIfLess as u32) {
        2
    } else if kind < (Opcode::CaptureValue as u32) {
        3
    } else {
        0
    }
}
