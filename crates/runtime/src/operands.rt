// The fields of an instruction (kaori's runtime/operands.rs): a register's and a constant's number, each a word of the record.
pub type Reg = u32;

pub type Const = u32;
