// The eight numbers that come back from lowering: of a question that was answered no, and of what the walk answered.
#![tactic(auto)]

ghost use Rattle.std.specs.Prelude.{◌≡◌, cond, List, ℕ};
ghost use Rattle.diagnostics.specs.Refusal.{refusal_number};
ghost use Rattle.words.specs.Words.{words};
ghost use Rattle.syntax.specs.Ast.{node_word};
ghost use Rattle.lowering.specs.Tree.{tree_of};
ghost use Rattle.lowering.specs.Walk.{made};
ghost use Rattle.lowering.specs.Result.{numbers_of, lowered_of};
ghost use Rattle.steps.specs.Answers.{place_at, refusal_of, names_node, seen};
ghost use Rattle.result.specs.Numbers.{numbers, refused_result};

use diagnostics::{Refusal, Refused};
use lowering::{RESULT_WORDS, State};
use steps::answer::{Stepped, is_refusal, number_of, value_of};
use syntax::ast::node_word;

// The words of a node record that have its span.
const SPAN_START: u32 = 4;

const SPAN_END: u32 = 5;

// The eight numbers that come back.
#[derive(Clone, Copy)]
pub struct Result {
    pub number: u32,
    pub place: u32,
    pub start: u32,
    pub end: u32,
    pub instructions: u32,
    pub constants: u32,
    pub frame_size: u32,
    pub arity: u32,
}

// The eight numbers, in document 01's order. An `impl From` for the array would be no plainer: a caller would have to write the array's type.
pub fn numbers_of(r: Result) -> [u32; RESULT_WORDS]
    ensures { result ≡ numbers_of (numbers r) }
{
    [
        r.number,
        r.place,
        r.start,
        r.end,
        r.instructions,
        r.constants,
        r.frame_size,
        r.arity,
    ]
}

// Nothing was made: a question was answered no.
pub fn refused_result(refused: Refused) -> Result
    ensures { numbers result ≡ refused_result refused.refusal refused.place }
{
    Result {
        number: refused.refusal.number(),
        place: refused.place,
        start: 0,
        end: 0,
        instructions: 0,
        constants: 0,
        frame_size: 0,
        arity: 0,
    }
}

// Whether a refusal names a node, whose span comes back. The answer of the walk has the refusal's number, so numbers are compared: a match would need
// the refusal read back from it, with 19 arms.
#[tactic(auto, using(crate::proofs::Laws::node_named))]
fn names_node(number: u32) -> bool
    ensures { result ≡ names_node (refusal_of number) }
{
    (number == Refusal::Undeclared.number())
        | (number == Refusal::Else.number())
        | (number == Refusal::Key.number())
        | (number == Refusal::Unmarked.number())
}

// The number of the refusal that a number stands for: 1 to 19 stand for themselves. No answer of the walk has another number, but the contract of `result_of` holds of any word.
// A number, since the answer has one: a match would, here too, need the refusal read back from it.
#[tactic(auto, using(crate::proofs::Laws::number_clamped))]
fn refusal_number(number: u32) -> u32
    ensures { result ≡ refusal_number (refusal_of number) }
{
    number.clamp(Refusal::Size.number(), Refusal::Jump.number())
}

// The span of the node that a refusal names, its start and its end; 0 and 0 if it names none.
fn span(nodes: &[u8], number: u32, place: u32) -> (u32, u32)
    ensures start { result.0 ≡ cond (names_node (refusal_of number)) (node_word (words nodes.now) place 4) 0 }
    ensures end { result.1 ≡ cond (names_node (refusal_of number)) (node_word (words nodes.now) place 5) 0 }
{
    if !names_node(number) {
        return (0, 0);
    }
    (
        node_word(nodes, place, SPAN_START),
        node_word(nodes, place, SPAN_END),
    )
}

// The numbers of what was made. On a refusal the last two are 0, and the span is that of the node that it names.
#[tactic(auto, using(crate::proofs::Laws::result_refused, crate::proofs::Laws::result_placed))]
pub fn result_of(nodes: &[u8], lowered: Stepped<State>, arity: u32) -> Result
    ensures { (list names k p m : List ℕ) → numbers result ≡ (lowered_of arity (seen (tree_of nodes.now list names) place_at (made k p m lowered.after) lowered.answer)).result }
{
    let s = lowered.after;
    let a = lowered.answer;
    let place = value_of(a);
    if is_refusal(a) {
        let number = number_of(a);
        let (start, end) = span(nodes, number, place);
        return Result {
            number: refusal_number(number),
            place,
            start,
            end,
            instructions: s.counts.instructions,
            constants: s.counts.constants,
            frame_size: 0,
            arity: 0,
        };
    }
    Result {
        number: 0,
        place,
        start: 0,
        end: 0,
        instructions: s.counts.instructions,
        constants: s.counts.constants,
        frame_size: s.registers.frame_size,
        arity,
    }
}
