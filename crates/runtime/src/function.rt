// The function under construction (kaori's runtime/function.rs): code and constants as records in lent buffers, each with its count.
ghost use Rattle.std.specs.Prelude.{◌≡◌, [], ◌∷◌};
ghost use Rattle.diagnostics.specs.declared.Refusal.{Refusal};
ghost use Rattle.words.specs.Words.{words, tail};
ghost use Rattle.words.specs.Records.{append, buffer};
ghost use Rattle.runtime.specs.Function.{max_instructions, store_constant};

use crate::opcode::AsWord;
use crate::operand::Operand;
use crate::value::constant_words;
use diagnostics::Refusal;
use words::{Appended, MAX_COUNT, append, position};

// The most instructions that are made.
pub const MAX_INSTRUCTIONS: u32 = 1048576;

// Puts the instruction with these words after the first `count` ones. The first word is an opcode's, or any word.
pub fn emit_instruction<O: AsWord>(
    code: &mut [u8],
    count: u32,
    opcode: O,
    a: u32,
    b: u32,
    c: u32,
) -> Appended
    ensures words { buffer (words code.new) result
        ≡ append (words code.old) count max_instructions (O.as_word opcode ∷ a ∷ b ∷ c ∷ []) Refusal.Code }
    ensures tail { tail code.new ≡ tail code.old }
{
    let words = [opcode.as_word(), a, b, c];
    append(code, count, MAX_INSTRUCTIONS, &words, Refusal::Code)
}

// Pools a constant: it is the first of the `count` constants that is this one, or it is put after them.
#[tactic(auto, using(words::proofs::Search::first_is, words::proofs::Search::first_is_none), unfolding(crate::specs::Function::store_constant))]
pub fn store_constant(constants: &mut [u8], count: u32, constant: Operand) -> Appended
    ensures words { buffer (words constants.new) result ≡ store_constant (words constants.old) count constant }
    ensures tail { tail constants.new ≡ tail constants.old }
{
    let words = constant_words(constant);
    if let Some(place) = position(constants, count, &words) {
        return Appended {
            count,
            place: Ok(place),
        };
    }
    append(constants, count, MAX_COUNT, &words, Refusal::Constants)
}
