// The steps on the state: a destination, a constant loaded or pooled, an instruction emitted, a jump patched, a register given back. Each contract equates the outcome with that of the definition's step, whatever stands in
// the buffers that it does not touch.
ghost use Rattle.std.specs.Prelude.{◌≡◌, List, [], ◌∷◌, ℕ, ◌-◌};
ghost use Rattle.words.specs.Words.{words, tail};
ghost use Rattle.environment.specs.Registers.{given_back};
ghost use Rattle.runtime.specs.declared.instruction.Instruction.{Instruction};
ghost use Rattle.runtime.specs.Instruction.{words_of};
ghost use Rattle.runtime.specs.Opcode.{opcode_number};
ghost use Rattle.lowering.specs.Tree.{Tree};
ghost use Rattle.lowering.specs.Walk.{made};
ghost use Rattle.lowering.specs.Steps.{destination, emit, store, load_constant, put_offset};
ghost use Rattle.steps.specs.Answers.{register_at, dest_of, place_at, settled, seen, Aimed, RegisterOrRefusal, WordOrRefusal};

use crate::answer::{Stepped, answered, is_refusal, refused, value_of};
use crate::counted::{self, constant_into};
use lowering::State;
use patch::put_offset;
use runtime::opcode::Opcode;
use runtime::operand::Operand;

// The register asked for, else the smallest free one, which is taken.
#[tactic(auto, using(crate::proofs::Words::refusal_start_lem, crate::proofs::Words::refusal_from))]
pub fn destination(state: State, dest: Option<u32>) -> Stepped<State>
    ensures step { (t : Tree) (k p m : List ℕ) → settled (destination (dest_of dest) (made k p m state)) ≡ seen t register_at (made k p m result.after) result.answer }
    ensures word { Aimed dest → RegisterOrRefusal result.answer }
{
    if let Some(d) = dest {
        return answered(state, d);
    }
    let taken = state.registers.take();
    match taken.register {
        Ok(register) => {
            let mut s = state;
            s.registers = taken.set;
            answered(s, register)
        }
        Err(refusal) => refused(state, refusal, 0),
    }
}

// Destination, pool, LoadConst.
#[tactic(auto, using(crate::proofs::Words::refusal_start_lem, crate::proofs::Words::refusal_from))]
pub fn load_constant(
    code: &mut [u8],
    constants: &mut [u8],
    state: State,
    constant: Operand,
    dest: Option<u32>,
) -> Stepped<State>
    ensures step { (t : Tree) (m : List ℕ) → settled (load_constant constant (dest_of dest) (made (words code.old) (words constants.old) m state))
        ≡ seen t register_at (made (words code.new) (words constants.new) m result.after) result.answer }
    ensures code { tail code.new ≡ tail code.old }
    ensures constants { tail constants.new ≡ tail constants.old }
    ensures word { Aimed dest → RegisterOrRefusal result.answer }
{
    let r = destination(state, dest);
    if is_refusal(r.answer) {
        return r;
    }
    let s = r.after;
    let d = value_of(r.answer);
    let f = constant_into(code, constants, s.counts, constant, d);
    f.on(s)
}

// An instruction emitted. Its place is the answer.
pub fn emit(code: &mut [u8], state: State, opcode: Opcode, a: u32, b: u32, c: u32) -> Stepped<State>
    ensures step { (t : Tree) (i : Instruction) (p m : List ℕ) → words_of i ≡ opcode_number opcode ∷ a ∷ b ∷ c ∷ [] →
        settled (emit i (made (words code.old) p m state)) ≡ seen t place_at (made (words code.new) p m result.after) result.answer }
    ensures code { tail code.new ≡ tail code.old }
    ensures word { WordOrRefusal result.answer }
{
    let f = counted::emit(code, state.counts, opcode, a, b, c);
    f.on(state)
}

// A constant pooled. Its place is the answer.
pub fn store(constants: &mut [u8], state: State, constant: Operand) -> Stepped<State>
    ensures step { (t : Tree) (k m : List ℕ) → settled (store constant (made k (words constants.old) m state)) ≡ seen t place_at (made k (words constants.new) m result.after) result.answer }
    ensures constants { tail constants.new ≡ tail constants.old }
    ensures word { WordOrRefusal result.answer }
{
    let f = counted::store(constants, state.counts, constant);
    f.on(state)
}

// What a source held is given back.
pub fn given_back(state: State, src: u32) -> State
    ensures { result ≡ record { registers = given_back state.registers src; counts = state.counts; marks = state.marks } }
{
    let mut s = state;
    let held = s.registers;
    s.registers = held.give_back(src);
    s
}

// The jump at `place` goes to the instruction `next`.
pub fn patch_to_next(code: &mut [u8], place: u32, next: u32)
    ensures words { words code.new ≡ put_offset (words code.old) place (next - place) }
    ensures tail { tail code.new ≡ tail code.old }
{
    put_offset(code, place, next.saturating_sub(place));
}
