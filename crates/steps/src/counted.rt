// The steps on the two counts: an instruction emitted, a constant pooled, a constant loaded. They take no register, so the state stays with the walk. The counts, or a
// state, are copied, and one field of the copy is changed: with each field written out, maps and properties took a twentieth more time.
ghost use Rattle.std.specs.Prelude.{◌≡◌, List, [], ◌∷◌, ℕ, Some};
ghost use Rattle.words.specs.Words.{words, tail};
ghost use Rattle.environment.specs.declared.RegisterSet.{RegisterSet};
ghost use Rattle.runtime.specs.declared.instruction.Instruction.{Instruction};
ghost use Rattle.runtime.specs.Instruction.{words_of};
ghost use Rattle.runtime.specs.Opcode.{opcode_number};
ghost use Rattle.lowering.specs.Tree.{Tree};
ghost use Rattle.lowering.specs.Walk.{made};
ghost use Rattle.lowering.specs.Steps.{emit, store, load_constant};
ghost use Rattle.steps.specs.Answers.{register_at, place_at, settled, seen, state_of, DestOrRefusal, WordOrRefusal};

use crate::answer::{Stepped, answered, is_refusal, refused, reg_of, value_of};
use lowering::{Counts, State};
use runtime::function::{emit_instruction, store_constant};
use runtime::opcode::Opcode;
use runtime::operand::Operand;

impl Stepped<Counts> {
    // The same answer, of a step on a state: it has these counts afterwards.
    pub fn on(self, state: State) -> Stepped<State>
        ensures { result ≡ record { after = state_of state.registers self.after state.marks; answer = self.answer } }
    {
        let mut s = state;
        s.counts = self.after;
        Stepped {
            after: s,
            answer: self.answer,
        }
    }
}

// An instruction emitted. Its place is the answer.
#[tactic(auto, using(crate::proofs::Words::refusal_start_lem, crate::proofs::Words::refusal_from))]
pub fn emit(
    code: &mut [u8],
    counts: Counts,
    opcode: Opcode,
    a: u32,
    b: u32,
    c: u32,
) -> Stepped<Counts>
    ensures step { (t : Tree) (i : Instruction) (rs : RegisterSet) (n : ℕ) (p m : List ℕ) → words_of i ≡ opcode_number opcode ∷ a ∷ b ∷ c ∷ [] →
        settled (emit i (made (words code.old) p m (state_of rs counts n))) ≡ seen t place_at (made (words code.new) p m (state_of rs result.after n)) result.answer }
    ensures code { tail code.new ≡ tail code.old }
    ensures word { WordOrRefusal result.answer }
{
    let emitted = emit_instruction(code, counts.instructions, opcode, a, b, c);
    match emitted.place {
        Ok(n) => {
            let mut made = counts;
            made.instructions = emitted.count;
            answered(made, n)
        }
        Err(refusal) => refused(counts, refusal, 0),
    }
}

// A constant pooled. Its place is the answer.
#[tactic(auto, using(crate::proofs::Words::refusal_start_lem, crate::proofs::Words::refusal_from))]
pub fn store(constants: &mut [u8], counts: Counts, constant: Operand) -> Stepped<Counts>
    ensures step { (t : Tree) (rs : RegisterSet) (n : ℕ) (k m : List ℕ) →
        settled (store constant (made k (words constants.old) m (state_of rs counts n))) ≡ seen t place_at (made k (words constants.new) m (state_of rs result.after n)) result.answer }
    ensures constants { tail constants.new ≡ tail constants.old }
    ensures word { WordOrRefusal result.answer }
{
    let stored = store_constant(constants, counts.constants, constant);
    match stored.place {
        Ok(k) => {
            let mut pooled = counts;
            pooled.constants = stored.count;
            answered(pooled, k)
        }
        Err(refusal) => refused(counts, refusal, 0),
    }
}

// A constant in d: pool, LoadConst. d is the answer. Code and constants are handed over apart, here and in the ends of operators: a struct of all buffers would ask
// for the marks too.
#[tactic(auto, using(crate::proofs::Words::refusal_start_lem, crate::proofs::Words::refusal_from))]
pub fn constant_into(
    code: &mut [u8],
    constants: &mut [u8],
    counts: Counts,
    constant: Operand,
    d: u32,
) -> Stepped<Counts>
    ensures step { (t : Tree) (rs : RegisterSet) (n : ℕ) (m : List ℕ) →
        settled (load_constant constant (Some (register_at d)) (made (words code.old) (words constants.old) m (state_of rs counts n)))
        ≡ seen t register_at (made (words code.new) (words constants.new) m (state_of rs result.after n)) result.answer }
    ensures code { tail code.new ≡ tail code.old }
    ensures constants { tail constants.new ≡ tail constants.old }
    ensures word { DestOrRefusal d result.answer }
{
    let stored = store(constants, counts, constant);
    if is_refusal(stored.answer) {
        return stored;
    }
    let k = value_of(stored.answer);
    let e = emit(code, stored.after, Opcode::LoadConst, reg_of(d), k, 0);
    if is_refusal(e.answer) {
        return e;
    }
    answered(e.after, d)
}
