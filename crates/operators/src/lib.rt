// The opcode of an operator, by where its operands are: two registers (rr), a register and a constant (rk), a constant and a register (kr); and
// whether its operands are swapped. "Greater swaps operands, not their evaluation. A constant on the left of add, multiply, equal, not-equal
// goes right." The arms stand in the order of kaori's lower_expression.rs and lower_ast.rs.
// Each form and each sense keeps a table of its own, an arm an operator in that order, as kaori has them: one table over the form would have the same arms, and one over the sense
// would ask for the negated operator, which kaori has not.
#![tactic(auto)]

ghost use Rattle.std.specs.Prelude.{ℕ, ◌≡◌, [], ◌∷◌, Some};
ghost use Rattle.syntax.specs.declared.ops.Comparison.{Comparison};
ghost use Rattle.runtime.specs.Instruction.{words_of};
ghost use Rattle.runtime.specs.Opcode.{opcode_number};
ghost use Rattle.lowering.specs.Operators.{binary_rr, binary_rk, binary_kr, unary, comparison, jump_rr, jump_rk, jump_kr, jump_if};
ghost use Rattle.operators.specs.Opcodes.{swaps, swaps_kr, jump_swaps, first_of, second_of, is_comparison};

use runtime::opcode::Opcode;
use syntax::ops::{AsBinaryOp, AsUnaryOp, BinaryOp, UnaryOp};

// Greater swaps the operands.
#[tactic(auto, unfolding(runtime::specs::Instruction::words_of, lowering::specs::Operators::binary_rr, crate::specs::Opcodes::swaps))]
pub fn binary_rr<O: AsBinaryOp>(operator: O) -> Opcode
    ensures { (d a b : ℕ) → words_of (binary_rr (O.as_binary_op operator) d a b)
        ≡ opcode_number result ∷ d ∷ first_of (swaps (O.as_binary_op operator)) a b ∷ second_of (swaps (O.as_binary_op operator)) a b ∷ [] }
{
    match operator.as_binary_op() {
        BinaryOp::Add => Opcode::Add,
        BinaryOp::Subtract => Opcode::Subtract,
        BinaryOp::Multiply => Opcode::Multiply,
        BinaryOp::Divide => Opcode::Divide,
        BinaryOp::Modulo => Opcode::Modulo,
        BinaryOp::Equal => Opcode::Equal,
        BinaryOp::NotEqual => Opcode::NotEqual,
        BinaryOp::Less | BinaryOp::Greater => Opcode::Less,
        BinaryOp::LessEqual | BinaryOp::GreaterEqual => Opcode::LessEqual,
    }
}

// Greater swaps the operands: the constant comes first.
#[tactic(auto, unfolding(runtime::specs::Instruction::words_of, lowering::specs::Operators::binary_rk, crate::specs::Opcodes::swaps))]
pub fn binary_rk<O: AsBinaryOp>(operator: O) -> Opcode
    ensures { (d a k : ℕ) → words_of (binary_rk (O.as_binary_op operator) d a k)
        ≡ opcode_number result ∷ d ∷ first_of (swaps (O.as_binary_op operator)) a k ∷ second_of (swaps (O.as_binary_op operator)) a k ∷ [] }
{
    match operator.as_binary_op() {
        BinaryOp::Add => Opcode::AddK,
        BinaryOp::Subtract => Opcode::SubtractRK,
        BinaryOp::Multiply => Opcode::MultiplyK,
        BinaryOp::Divide => Opcode::DivideRK,
        BinaryOp::Modulo => Opcode::ModuloRK,
        BinaryOp::Equal => Opcode::EqualK,
        BinaryOp::NotEqual => Opcode::NotEqualK,
        BinaryOp::Less => Opcode::LessRK,
        BinaryOp::Greater => Opcode::LessKR,
        BinaryOp::GreaterEqual => Opcode::LessEqualKR,
        BinaryOp::LessEqual => Opcode::LessEqualRK,
    }
}

// A constant on the left of add, multiply, equal, not-equal goes right.
#[tactic(auto, unfolding(runtime::specs::Instruction::words_of, lowering::specs::Operators::binary_kr, crate::specs::Opcodes::swaps_kr))]
pub fn binary_kr<O: AsBinaryOp>(operator: O) -> Opcode
    ensures { (d k b : ℕ) → words_of (binary_kr (O.as_binary_op operator) d k b)
        ≡ opcode_number result ∷ d ∷ first_of (swaps_kr (O.as_binary_op operator)) k b ∷ second_of (swaps_kr (O.as_binary_op operator)) k b ∷ [] }
{
    match operator.as_binary_op() {
        BinaryOp::Add => Opcode::AddK,
        BinaryOp::Multiply => Opcode::MultiplyK,
        BinaryOp::Equal => Opcode::EqualK,
        BinaryOp::NotEqual => Opcode::NotEqualK,
        BinaryOp::Subtract => Opcode::SubtractKR,
        BinaryOp::Divide => Opcode::DivideKR,
        BinaryOp::Modulo => Opcode::ModuloKR,
        BinaryOp::Less => Opcode::LessKR,
        BinaryOp::Greater => Opcode::LessRK,
        BinaryOp::GreaterEqual => Opcode::LessEqualRK,
        BinaryOp::LessEqual => Opcode::LessEqualKR,
    }
}

// Whether the operands of binary_rr and binary_rk are swapped.
#[tactic(auto, unfolding(crate::specs::Opcodes::swaps))]
pub fn swaps<O: AsBinaryOp>(operator: O) -> bool
    ensures { result ≡ swaps (O.as_binary_op operator) }
{
    let operator = operator.as_binary_op();
    matches!(operator, BinaryOp::Greater | BinaryOp::GreaterEqual)
}

// Whether those of binary_kr are.
#[tactic(auto, unfolding(crate::specs::Opcodes::swaps_kr))]
pub fn swaps_kr<O: AsBinaryOp>(operator: O) -> bool
    ensures { result ≡ swaps_kr (O.as_binary_op operator) }
{
    matches!(
        operator.as_binary_op(),
        BinaryOp::Greater
            | BinaryOp::GreaterEqual
            | BinaryOp::Add
            | BinaryOp::Multiply
            | BinaryOp::Equal
            | BinaryOp::NotEqual
    )
}

// The opcode of a unary operator.
#[tactic(auto, unfolding(runtime::specs::Instruction::words_of, lowering::specs::Operators::unary))]
pub fn unary<O: AsUnaryOp>(operator: O) -> Opcode
    ensures { (d a : ℕ) → words_of (unary (O.as_unary_op operator) d a) ≡ opcode_number result ∷ d ∷ a ∷ 0 ∷ [] }
{
    match operator.as_unary_op() {
        UnaryOp::Negate => Opcode::Negate,
        UnaryOp::Deref => Opcode::Deref,
    }
}

// Six of the operators compare.
#[tactic(auto, unfolding(crate::specs::Opcodes::is_comparison))]
pub fn is_comparison<O: AsBinaryOp>(operator: O) -> bool
    ensures { result ≡ is_comparison (O.as_binary_op operator) }
{
    matches!(
        operator.as_binary_op(),
        BinaryOp::Equal
            | BinaryOp::NotEqual
            | BinaryOp::Less
            | BinaryOp::Greater
            | BinaryOp::LessEqual
            | BinaryOp::GreaterEqual
    )
}

// The jump that is taken where the comparison gives `sense`. Nothing is said of an operator that does not compare, here and in the next three.
#[tactic(auto, unfolding(runtime::specs::Instruction::words_of, lowering::specs::Operators::comparison, lowering::specs::Operators::jump_rr, crate::specs::Opcodes::jump_swaps))]
pub fn jump_rr<O: AsBinaryOp>(sense: bool, operator: O) -> Opcode
    ensures { (c : Comparison) → comparison (O.as_binary_op operator) ≡ Some c → (a b : ℕ)
        → words_of (jump_rr sense c a b) ≡ opcode_number result ∷ first_of (jump_swaps sense c) a b ∷ second_of (jump_swaps sense c) a b ∷ 0 ∷ [] }
{
    if sense {
        match operator.as_binary_op() {
            BinaryOp::Equal => Opcode::JumpIfEqual,
            BinaryOp::NotEqual => Opcode::JumpIfNotEqual,
            BinaryOp::Less | BinaryOp::Greater => Opcode::JumpIfLess,
            _ => Opcode::JumpIfLessEqual,
        }
    } else {
        match operator.as_binary_op() {
            BinaryOp::Equal => Opcode::JumpIfNotEqual,
            BinaryOp::NotEqual => Opcode::JumpIfEqual,
            BinaryOp::Less | BinaryOp::Greater => Opcode::JumpIfLessEqual,
            _ => Opcode::JumpIfLess,
        }
    }
}

// The same of a register and a constant, in this order.
#[tactic(auto, unfolding(runtime::specs::Instruction::words_of, lowering::specs::Operators::comparison, lowering::specs::Operators::jump_rk))]
pub fn jump_rk<O: AsBinaryOp>(sense: bool, operator: O) -> Opcode
    ensures { (c : Comparison) → comparison (O.as_binary_op operator) ≡ Some c → (a k : ℕ) → words_of (jump_rk sense c a k) ≡ opcode_number result ∷ a ∷ k ∷ 0 ∷ [] }
{
    if sense {
        match operator.as_binary_op() {
            BinaryOp::Equal => Opcode::JumpIfEqualK,
            BinaryOp::NotEqual => Opcode::JumpIfNotEqualK,
            BinaryOp::Less => Opcode::JumpIfLessRK,
            BinaryOp::Greater => Opcode::JumpIfLessKR,
            BinaryOp::GreaterEqual => Opcode::JumpIfLessEqualKR,
            _ => Opcode::JumpIfLessEqualRK,
        }
    } else {
        match operator.as_binary_op() {
            BinaryOp::Equal => Opcode::JumpIfNotEqualK,
            BinaryOp::NotEqual => Opcode::JumpIfEqualK,
            BinaryOp::Less => Opcode::JumpIfLessEqualKR,
            BinaryOp::Greater => Opcode::JumpIfLessEqualRK,
            BinaryOp::GreaterEqual => Opcode::JumpIfLessRK,
            _ => Opcode::JumpIfLessKR,
        }
    }
}

// The same of a constant and a register; their fields, too, are the register and then the constant.
#[tactic(auto, unfolding(runtime::specs::Instruction::words_of, lowering::specs::Operators::comparison, lowering::specs::Operators::jump_kr))]
pub fn jump_kr<O: AsBinaryOp>(sense: bool, operator: O) -> Opcode
    ensures { (c : Comparison) → comparison (O.as_binary_op operator) ≡ Some c → (k b : ℕ) → words_of (jump_kr sense c k b) ≡ opcode_number result ∷ b ∷ k ∷ 0 ∷ [] }
{
    if sense {
        match operator.as_binary_op() {
            BinaryOp::Equal => Opcode::JumpIfEqualK,
            BinaryOp::NotEqual => Opcode::JumpIfNotEqualK,
            BinaryOp::Less => Opcode::JumpIfLessKR,
            BinaryOp::Greater => Opcode::JumpIfLessRK,
            BinaryOp::GreaterEqual => Opcode::JumpIfLessEqualRK,
            _ => Opcode::JumpIfLessEqualKR,
        }
    } else {
        match operator.as_binary_op() {
            BinaryOp::Equal => Opcode::JumpIfNotEqualK,
            BinaryOp::NotEqual => Opcode::JumpIfEqualK,
            BinaryOp::Less => Opcode::JumpIfLessEqualRK,
            BinaryOp::Greater => Opcode::JumpIfLessEqualKR,
            BinaryOp::GreaterEqual => Opcode::JumpIfLessKR,
            _ => Opcode::JumpIfLessRK,
        }
    }
}

// Whether the operands of jump_rr are swapped.
#[tactic(auto, unfolding(lowering::specs::Operators::comparison, crate::specs::Opcodes::jump_swaps))]
pub fn jump_swaps<O: AsBinaryOp>(sense: bool, operator: O) -> bool
    ensures { (c : Comparison) → comparison (O.as_binary_op operator) ≡ Some c → result ≡ jump_swaps sense c }
{
    match operator.as_binary_op() {
        BinaryOp::Equal | BinaryOp::NotEqual => false,
        BinaryOp::Greater | BinaryOp::GreaterEqual => sense,
        _ => !sense,
    }
}

// The jump that is taken where the register tests as `sense`.
#[tactic(auto, unfolding(runtime::specs::Instruction::words_of, lowering::specs::Operators::jump_if))]
pub fn jump_if(sense: bool) -> Opcode
    ensures { (a : ℕ) → words_of (jump_if sense a) ≡ opcode_number result ∷ a ∷ 0 ∷ 0 ∷ [] }
{
    if sense {
        Opcode::JumpIfTrue
    } else {
        Opcode::JumpIfFalse
    }
}
