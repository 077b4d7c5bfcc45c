// What the walk answers, as one word: a register, a place, LITERAL, or a refusal with its place. A register is a temporary's number, or a local's
// and REGISTERS more. It is a number and no `Register`, since it is part of that word: an enum would be made of the word and turned back at each step, and with an
// `Option<Register>` as the destination deep trees took 4 per cent more time, with many constants 10 (docs/DESIGN-PASS.md).
ghost use Rattle.std.specs.Prelude.{◌≡◌, ◌+◌, ◌%◌};
ghost use Rattle.environment.specs.Registers.{register_count};
ghost use Rattle.runtime.specs.Operands.{reg_of};
ghost use Rattle.steps.specs.Answers.{register_at, number_at, word_end, refusal_at, is_refusal, value_of, number_of_refusal, is_inner};

use diagnostics::Refusal;
use environment::REGISTERS;
use words::WORD_END;

// What a step leaves, and its answer. A step that takes and gives back no register leaves the counts alone (`Stepped<Counts>`), any other one a state. The answer is a
// word. Tried, and slower than the goal, kaori's time, where the word meets it: a `Result` that holds the state (deep trees of 256 nodes 1.35 for 0.89), an enum beside it
// (deep trees of 4,096 nodes 1.19 for 0.95), a `Result` in the steps on the counts alone (calls of 256 nodes 1.06 for 1.00); docs/DESIGN-PASS.md has all figures.
#[derive(Clone, Copy)]
pub struct Stepped<S> {
    pub after: S,
    pub answer: u64,
}

// The word of an operand that is in no register: the node is a literal, which is not pooled yet. A word, since it is one of the walk's answers; no register has it, as they end at 512.
pub const LITERAL: u32 = 1024;

// The word where there is no register.
pub const NONE: u32 = u32::MAX;

// Answers from here on are refusals: the test is one of the sign, which the compiler takes for rare.
const REFUSED: u64 = 0x8000_0000_0000_0000;

// The register of local `number`.
pub fn local(number: u32) -> u32
    ensures { result ≡ register_count + number % register_count }
{
    REGISTERS + number % REGISTERS
}

// The number of a register, as a field of an instruction has it.
#[tactic(auto, using(crate::proofs::Words::reg_of_register_at))]
pub fn reg_of(register: u32) -> u32
    ensures { result ≡ reg_of (register_at register) }
{
    register % REGISTERS
}

// The register that was taken, or NONE: the flat nodes take it as a word, which is quicker than an Option there (properties of 256 nodes 1.24 of kaori's time, for 1.34).
#[tactic(auto, unfolding(crate::specs::Answers::number_at))]
pub fn number_at(place: Result<u32, Refusal>) -> u32
    ensures { result ≡ number_at place }
{
    place.unwrap_or(NONE)
}

// The node is left to the walk: part of the answer's word, as at `Stepped`.
pub fn inner(node: u32) -> u64
    ensures { result ≡ word_end + node }
{
    WORD_END + (node as u64)
}

#[tactic(auto, unfolding(crate::specs::Answers::is_inner))]
pub fn is_inner(answer: u64) -> bool
    ensures { result ≡ is_inner answer }
{
    answer / WORD_END == 1
}

#[tactic(auto, using(crate::proofs::Words::refusal_small), unfolding(crate::specs::Answers::refusal_at))]
pub fn refusal_at(refusal: Refusal, place: u32) -> u64
    ensures { result ≡ refusal_at refusal place }
{
    REFUSED + WORD_END * (refusal.number() as u64) + (place as u64)
}

#[tactic(auto, unfolding(crate::specs::Answers::is_refusal))]
pub fn is_refusal(answer: u64) -> bool
    ensures { result ≡ is_refusal answer }
{
    REFUSED <= answer
}

// The number of a refusal.
pub fn number_of(answer: u64) -> u32
    ensures { result ≡ number_of_refusal answer }
{
    (answer.saturating_sub(REFUSED) / WORD_END) as u32
}

// The register or the place that an answer is, or that a refusal names.
pub fn value_of(answer: u64) -> u32
    ensures { result ≡ value_of answer }
{
    (answer % WORD_END) as u32
}

// A register or a place is the answer.
pub fn answered<S>(after: S, value: u32) -> Stepped<S>
    ensures { result ≡ record { after = after; answer = value } }
{
    Stepped {
        after,
        answer: value as u64,
    }
}

// A refusal is the answer.
pub fn refused<S>(after: S, refusal: Refusal, place: u32) -> Stepped<S>
    ensures { result ≡ record { after = after; answer = refusal_at refusal place } }
{
    Stepped {
        after,
        answer: refusal_at(refusal, place),
    }
}

// The node is left to the walk: nothing was done.
pub fn left_to_walk<S>(after: S, node: u32) -> Stepped<S>
    ensures { result ≡ record { after = after; answer = word_end + node } }
{
    Stepped {
        after,
        answer: inner(node),
    }
}
