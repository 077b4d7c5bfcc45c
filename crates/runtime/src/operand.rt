// Operands (kaori's codegen/operand.rs): a register, or a constant that is not pooled yet.
use environment::Register;

#[derive(Clone, Copy)]
pub enum Operand {
    Register(Register),
    Number(f64),
    String(u32),
    Boolean(bool),
    Nil,
}
