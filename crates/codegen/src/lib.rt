// Lowering a tree (kaori's codegen/lower_ast.rs): the questions, the walk from the root by the mode, and the arguments patched. Plain comparisons are joined by `&`, in this
// crate as in questions.
#![tactic(auto)]

mod arena;
mod flat;
mod lower_expression;
mod node;

ghost use Rattle.std.specs.Prelude.{◌≡◌, List, ◌++◌, ℕ, ◌<◌};
ghost use Rattle.words.specs.Words.{words, tail, bytes_of};
ghost use Rattle.lowering.specs.Tree.{Tree};
ghost use Rattle.lowering.specs.Questions.{passed, questions};
ghost use Rattle.lowering.specs.Walk.{made, bind, ret};
ghost use Rattle.lowering.specs.Steps.{free_temp, patch_arguments};
ghost use Rattle.lowering.specs.Result.{lower_root, lower};
ghost use Rattle.steps.specs.Answers.{place_at, settled, seen};
ghost use Rattle.codegen.specs.Walks.{Kept, Walks};
ghost use Rattle.codegen.specs.Ready.{Ready, Lowers};
ghost use Rattle.result.specs.Numbers.{numbers};
ghost use Rattle.codegen.specs.Roots.{conditional};

use crate::arena::{Arena, Buffers, NodeRef};
use crate::flat::Asked;
use environment::RegisterSet;
use lowering::{Counts, State};
use patch::patch_arguments;
use questions::check;
use result::{Result, refused_result, result_of};
use runtime::opcode::Opcode;
use steps::answer::{Stepped, answered, is_refusal, refused, reg_of, value_of};
use steps::step::emit;
use words::WORD_BYTES;

// The arguments patched, and then the answer. The marks are lent to be written, and stay: the borrow checker has no rule yet for a place behind a reference that is lent for reading
// alone.
fn patch_and_answer(code: &mut [u8], marks: &mut [u8], state: State, place: u32) -> Stepped<State>
    ensures step { (t : Tree) (p : List ℕ) → settled (bind (patch_arguments (made (words code.old) p (words marks.old) state)) (λ x. ret place))
        ≡ seen t place_at (made (words code.new) p (words marks.new) result.after) result.answer }
    ensures tail { tail code.new ≡ tail code.old }
    ensures marks { marks.new ≡ marks.old }
{
    match patch_arguments(code, marks, state.marks, state.registers.frame_size) {
        Ok(()) => answered(state, place),
        Err(r) => refused(state, r.refusal, r.place),
    }
}

impl NodeRef<'_> {
    // Mode 0: the root's value, returned.
    fn lower_value(self, buffers: &mut Buffers, state: State) -> Stepped<State>
        ensures lowers { Walks (λ t. place_at) (λ t. lower_root free_temp t 0 self.entry.index) self.entry.arena.now buffers.old buffers.new state result }
        ensures kept { Kept buffers.old buffers.new }
    {
        let f = self.peek(buffers, state, Asked::Register);
        let r = self.lower_materializing(buffers, state, f, None);
        if is_refusal(r.answer) {
            return r;
        }
        let src = value_of(r.answer);
        let s1 = r.after;
        let e = emit(buffers.code, s1, Opcode::Return, reg_of(src), 0, 0);
        if is_refusal(e.answer) {
            return e;
        }
        let s = e.after;
        patch_and_answer(buffers.code, buffers.marks, s, 0)
    }

    // Modes 1 and 2: the root as a condition. The answer is the jump's place.
    fn lower_condition(self, buffers: &mut Buffers, state: State, sense: bool) -> Stepped<State>
        ensures lowers { Walks (λ t. place_at) (λ t. conditional t sense self.entry.index) self.entry.arena.now buffers.old buffers.new state result }
        ensures kept { Kept buffers.old buffers.new }
    {
        let r = self.lower_jump_if(buffers, state, sense);
        if is_refusal(r.answer) {
            return r;
        }
        let s = r.after;
        patch_and_answer(buffers.code, buffers.marks, s, value_of(r.answer))
    }

    // The root by its mode. A mode stays a number here: it is matched once, and an enum would need that match to be made, where the definition of `lower_root` matches on
    // the number.
    fn lower_root(self, buffers: &mut Buffers, state: State, mode: u32) -> Stepped<State>
        ensures lowers { Walks (λ t. place_at) (λ t. lower_root free_temp t mode self.entry.index) self.entry.arena.now buffers.old buffers.new state result }
        ensures kept { Kept buffers.old buffers.new }
    {
        match mode {
            0 => self.lower_value(buffers, state),
            1 => self.lower_condition(buffers, state, false),
            _ => self.lower_condition(buffers, state, true),
        }
    }
}

// The tree and the buffers are made of the slices, for the whole walk. A function of its own: it speaks of whole words alone, and `lower_checked` of the bytes behind them.
fn lower_lent(
    nodes: &[u8],
    list: &[u8],
    names: &[u8],
    code: &mut [u8],
    constants: &mut [u8],
    marks: &mut [u8],
    state: State,
    mode: u32,
    root: u32,
) -> Stepped<State>
    requires { Ready nodes.now list.now names.now root }
    ensures { Lowers (λ t. place_at) (λ t. lower_root free_temp t mode root) nodes.now list.now names.now
        code.old constants.old marks.old code.new constants.new marks.new state result }
{
    let arena = Arena { nodes, list, names };
    let root = NodeRef {
        arena: &arena,
        index: root,
    };
    let mut buffers = Buffers {
        code,
        constants,
        marks,
    };
    root.lower_root(&mut buffers, state, mode)
}

// Every question was answered yes: the walk is lent the whole words of each buffer.
fn lower_checked(
    nodes: &[u8],
    root: u32,
    mode: u32,
    list: &[u8],
    names: &[u8],
    code: &mut [u8],
    constants: &mut [u8],
    marks: &mut [u8],
) -> Result
    requires { questions nodes.now list.now names.now mode root ≡ passed }
    ensures result { numbers result ≡ (lower nodes.now root mode list.now names.now (words code.old) (words constants.old) (words marks.old)).result }
    ensures code { code.new ≡ bytes_of (lower nodes.now root mode list.now names.now (words code.old) (words constants.old) (words marks.old)).code ++ tail code.old }
    ensures constants { constants.new ≡ bytes_of (lower nodes.now root mode list.now names.now (words code.old) (words constants.old) (words marks.old)).constants ++ tail constants.old }
    ensures marks { marks.new ≡ bytes_of (lower nodes.now root mode list.now names.now (words code.old) (words constants.old) (words marks.old)).marks ++ tail marks.old }
{
    let arity = (names.len() / WORD_BYTES) as u32;
    let registers = RegisterSet::with_parameters(arity);
    let state = State {
        registers,
        counts: Counts {
            instructions: 0,
            constants: 0,
        },
        marks: 0,
    };
    let whole_code = code.len() / WORD_BYTES * WORD_BYTES;
    let whole_constants = constants.len() / WORD_BYTES * WORD_BYTES;
    let whole_marks = marks.len() / WORD_BYTES * WORD_BYTES;
    let lowered = lower_lent(
        nodes,
        list,
        names,
        &mut code[..whole_code],
        &mut constants[..whole_constants],
        &mut marks[..whole_marks],
        state,
        mode,
        root,
    );
    result_of(nodes, lowered, arity)
}

// Lowers the tree at `root`: the numbers that come back, and every byte of the three buffers, are the definition's, whatever the bytes are.
pub fn lower(
    nodes: &[u8],
    root: u32,
    mode: u32,
    list: &[u8],
    names: &[u8],
    code: &mut [u8],
    constants: &mut [u8],
    marks: &mut [u8],
) -> Result
    ensures result { numbers result ≡ (lower nodes.now root mode list.now names.now (words code.old) (words constants.old) (words marks.old)).result }
    ensures code { code.new ≡ bytes_of (lower nodes.now root mode list.now names.now (words code.old) (words constants.old) (words marks.old)).code ++ tail code.old }
    ensures constants { constants.new ≡ bytes_of (lower nodes.now root mode list.now names.now (words code.old) (words constants.old) (words marks.old)).constants ++ tail constants.old }
    ensures marks { marks.new ≡ bytes_of (lower nodes.now root mode list.now names.now (words code.old) (words constants.old) (words marks.old)).marks ++ tail marks.old }
{
    match check(nodes, list, names, mode, root) {
        Err(r) => refused_result(r),
        Ok(()) => lower_checked(nodes, root, mode, list, names, code, constants, marks),
    }
}
