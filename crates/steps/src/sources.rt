// The end of an operator on two sources. One of them may be a constant: it is pooled, then one instruction is emitted. The functions take two counts and not
// the state, since no register is taken or given back.
ghost use Rattle.std.specs.Prelude.{◌≡◌, List, [], ◌∷◌, ◌≢◌, ℕ, Option, Some};
ghost use Rattle.environment.specs.declared.Register.{Register};
ghost use Rattle.words.specs.Words.{words, tail};
ghost use Rattle.environment.specs.declared.RegisterSet.{RegisterSet};
ghost use Rattle.syntax.specs.declared.ops.Comparison.{Comparison};
ghost use Rattle.runtime.specs.declared.instruction.Instruction.{Instruction};
ghost use Rattle.runtime.specs.Instruction.{words_of};
ghost use Rattle.runtime.specs.Opcode.{opcode_number};
ghost use Rattle.runtime.specs.Operands.{reg_of};
ghost use Rattle.lowering.specs.Tree.{Tree};
ghost use Rattle.lowering.specs.Walk.{Walk, made, bind, ret};
ghost use Rattle.lowering.specs.Steps.{emit, store};
ghost use Rattle.lowering.specs.Operators.{comparison};
ghost use Rattle.lowering.specs.Lower.{binary_sources, fused_sources};
ghost use Rattle.operators.specs.Opcodes.{first_of, second_of};
ghost use Rattle.steps.specs.Answers.{register_at, literal_word, first_source, second_source, place_at, settled, seen, state_of, DestOrRefusal, WordOrRefusal};

use crate::answer::{LITERAL, Stepped, answered, is_refusal, reg_of, value_of};
use crate::counted::{emit, store};
use lowering::Counts;
use operators::{
    binary_kr, binary_rk, binary_rr, jump_kr, jump_rk, jump_rr, jump_swaps, swaps, swaps_kr,
};
use runtime::opcode::Opcode;
use runtime::operand::Operand;
use syntax::ops::AsBinaryOp;

// The two sources of an operator, by where they are: in registers (R), or one of them a constant (K) that is not pooled yet.
#[derive(Clone, Copy)]
pub enum Sources {
    RR(u32, u32),
    RK(u32, Operand),
    KR(Operand, u32),
}

// The first of two operands in the order in which an instruction has them. The second is `first_of` of the two exchanged.
pub fn first_of(swap: bool, a: u32, b: u32) -> u32
    ensures { result ≡ first_of swap a b }
{
    if swap { b } else { a }
}

// The instruction of an operator, with its result in d.
#[tactic(auto, using(crate::proofs::Words::refusal_start_lem, crate::proofs::Words::refusal_from))]
fn binary_end(
    code: &mut [u8],
    counts: Counts,
    opcode: Opcode,
    swap: bool,
    src1: u32,
    src2: u32,
    d: u32,
) -> Stepped<Counts>
    ensures step { (t : Tree) (i : Instruction) (rs : RegisterSet) (n : ℕ) (p m : List ℕ) →
        words_of i ≡ opcode_number opcode ∷ reg_of (register_at d) ∷ first_of swap src1 src2 ∷ second_of swap src1 src2 ∷ [] →
        settled (bind (emit i (made (words code.old) p m (state_of rs counts n))) (λ x. ret (Operand.Register (register_at d))))
        ≡ seen t (λ w. Operand.Register (register_at w)) (made (words code.new) p m (state_of rs result.after n)) result.answer }
    ensures code { tail code.new ≡ tail code.old }
    ensures word { DestOrRefusal d result.answer }
{
    let a = first_of(swap, src1, src2);
    let b = first_of(swap, src2, src1);
    let e = emit(code, counts, opcode, reg_of(d), a, b);
    if is_refusal(e.answer) {
        return e;
    }
    answered(e.after, d)
}

// The instruction of an operator on its sources, with its result in d. What the sources held is given back by the walk.
#[tactic(auto, using(crate::proofs::Words::refusal_start_lem, crate::proofs::Words::refusal_from))]
pub fn binary_sources<O: AsBinaryOp>(
    code: &mut [u8],
    constants: &mut [u8],
    counts: Counts,
    operator: O,
    sources: Sources,
    d: u32,
) -> Stepped<Counts>
    ensures step { (t : Tree) (E : ℕ → Option Register → Walk Operand) (left right : ℕ) (rs : RegisterSet) (n : ℕ) (m : List ℕ) →
        settled (binary_sources (λ x. ret tt) t E (O.as_binary_op operator) left right (register_at d) (first_source sources) (second_source sources)
        (made (words code.old) (words constants.old) m (state_of rs counts n)))
        ≡ seen t (λ w. Operand.Register (register_at w)) (made (words code.new) (words constants.new) m (state_of rs result.after n)) result.answer }
    ensures code { tail code.new ≡ tail code.old }
    ensures constants { tail constants.new ≡ tail constants.old }
    ensures word { DestOrRefusal d result.answer }
{
    let operator = operator.as_binary_op();
    match sources {
        Sources::RR(src1, src2) => {
            let opcode = binary_rr(operator);
            let swap = swaps(operator);
            binary_end(code, counts, opcode, swap, reg_of(src1), reg_of(src2), d)
        }
        Sources::RK(src1, constant) => {
            let stored = store(constants, counts, constant);
            if is_refusal(stored.answer) {
                return stored;
            }
            let k = value_of(stored.answer);
            let opcode = binary_rk(operator);
            let swap = swaps(operator);
            binary_end(code, stored.after, opcode, swap, reg_of(src1), k, d)
        }
        Sources::KR(constant, src2) => {
            let stored = store(constants, counts, constant);
            if is_refusal(stored.answer) {
                return stored;
            }
            let k = value_of(stored.answer);
            let opcode = binary_kr(operator);
            let swap = swaps_kr(operator);
            binary_end(code, stored.after, opcode, swap, k, reg_of(src2), d)
        }
    }
}

// The jump of a comparison on its sources, taken where it gives `sense`. Its place is the answer. It stands beside `binary_sources`, and each arm by itself: the opcode is another in each arm
// and each function, and the order of the fields in most, so what would be joined is the constant pooled, which is a call.
#[tactic(auto, using(crate::proofs::Words::refusal_start_lem, crate::proofs::Words::refusal_from))]
pub fn fused_sources<O: AsBinaryOp>(
    code: &mut [u8],
    constants: &mut [u8],
    counts: Counts,
    sense: bool,
    operator: O,
    sources: Sources,
) -> Stepped<Counts>
    ensures step { (t : Tree) (E : ℕ → Option Register → Walk Operand) (own : Option Register → Walk Operand) (c : Comparison) (rs : RegisterSet) (n : ℕ) (m : List ℕ) →
        comparison (O.as_binary_op operator) ≡ Some c →
        settled (fused_sources t E sense own c (first_source sources) (second_source sources)
        (made (words code.old) (words constants.old) m (state_of rs counts n)))
        ≡ seen t place_at (made (words code.new) (words constants.new) m (state_of rs result.after n)) result.answer }
    ensures code { tail code.new ≡ tail code.old }
    ensures constants { tail constants.new ≡ tail constants.old }
    ensures word { WordOrRefusal result.answer }
{
    let operator = operator.as_binary_op();
    match sources {
        Sources::RR(src1, src2) => {
            let opcode = jump_rr(sense, operator);
            let swap = jump_swaps(sense, operator);
            let a = reg_of(src1);
            let b = reg_of(src2);
            emit(
                code,
                counts,
                opcode,
                first_of(swap, a, b),
                first_of(swap, b, a),
                0,
            )
        }
        Sources::RK(src1, constant) => {
            let stored = store(constants, counts, constant);
            if is_refusal(stored.answer) {
                return stored;
            }
            let k = value_of(stored.answer);
            let opcode = jump_rk(sense, operator);
            emit(code, stored.after, opcode, reg_of(src1), k, 0)
        }
        Sources::KR(constant, src2) => {
            let stored = store(constants, counts, constant);
            if is_refusal(stored.answer) {
                return stored;
            }
            let k = value_of(stored.answer);
            let opcode = jump_kr(sense, operator);
            emit(code, stored.after, opcode, reg_of(src2), k, 0)
        }
    }
}

// The field of a source: its register, or the place of its constant, which is pooled. It is the answer. A source is a word here, as the walk answers it: an enum
// would be made of it for each of the two fields, and matched here.
pub fn field_of(
    constants: &mut [u8],
    counts: Counts,
    src: u32,
    constant: Operand,
) -> Stepped<Counts>
    ensures literal { src ≡ literal_word → (t : Tree) (rs : RegisterSet) (n : ℕ) (k m : List ℕ) →
        settled (store constant (made k (words constants.old) m (state_of rs counts n))) ≡ seen t place_at (made k (words constants.new) m (state_of rs result.after n)) result.answer }
    ensures register { src ≢ literal_word → (result ≡ record { after = counts; answer = reg_of (register_at src) }) × (words constants.new ≡ words constants.old) }
    ensures tail { tail constants.new ≡ tail constants.old }
    ensures word { WordOrRefusal result.answer }
{
    if src == LITERAL {
        return store(constants, counts, constant);
    }
    answered(counts, reg_of(src))
}
