// The walk (kaori's codegen/lower_expression.rs, and `lower_materializing` and `lower_jump_if_false` of lower_ast.rs): a node is lowered by lowering the nodes
// that it names, which are lower. One function an arm, in kaori's order. `dest` is the register that is to hold the value; where there is none, any register
// will do. A child is tried first (`peek`, `peek_into`), and walked if it is not flat. A state that is passed on is a copy of its own: the walk's own state
// then stays in machine registers. The lines that take a destination, try a child and walk it, or end an arm stand in each arm: with one function for a child,
// bushy trees took a fifth and properties a quarter more time, and with one for the end of unary, call and property, properties a tenth.
// Each arm asks what kind its node is, and that a destination is a register's word (`Aimed`): a type for either would be made, by the same proof, before each call,
// and the second be unwrapped at each step, since the steps are public and take any word.
ghost use Rattle.std.specs.Prelude.{◌≡◌, ◌≢◌, ◌⊎◌, ◌≤◌, true, false, List, [], ◌∷◌, ℕ, Option};
ghost use Rattle.environment.specs.declared.Register.{Register};
ghost use Rattle.words.specs.Words.{words};
ghost use Rattle.syntax.specs.Ops.{binary_op, unary_op};
ghost use Rattle.syntax.specs.Ast.{node_at};
ghost use Rattle.runtime.specs.declared.instruction.Instruction.{Instruction};
ghost use Rattle.runtime.specs.Instruction.{words_of};
ghost use Rattle.runtime.specs.Opcode.{opcode_number};
ghost use Rattle.lowering.specs.Operators.{unary};
ghost use Rattle.lowering.specs.Tree.{Tree};
ghost use Rattle.lowering.specs.Walk.{Walk};
ghost use Rattle.lowering.specs.Steps.{free_temp};
ghost use Rattle.lowering.specs.Literals.{literal};
ghost use Rattle.lowering.specs.Lower.{name_of, store_keyed, lower_arguments, lower_entry, test, jump_node, lower_expression, lower_jump_if_false};
ghost use Rattle.steps.specs.Answers.{Aimed, register_at, dest_of, operand_at, source_at, place_at, unit_at, settled, seen, is_inner, value_of, DestOrRefusal};
ghost use Rattle.codegen.specs.Walks.{arena_tree, word_at, tree_node, Kept, made_of, Untouched, Walks};
ghost use Rattle.codegen.specs.Ready.{EntryBelow};
ghost use Rattle.codegen.specs.Kinds.{name_kind, binary_kind, unary_kind, not_kind, and_kind, or_kind, if_kind, block_kind, call_kind, property_kind, map_kind, only_operand, key_operand, lower_literals, is_compared};

use crate::arena::{Buffers, NodeRef};
use crate::flat::{Asked, set_opcode};
use diagnostics::Refusal;
use lowering::State;
use operators::{binary_rr, is_comparison, jump_if, swaps, unary};
use patch::mark_argument;
use runtime::opcode::Opcode;
use runtime::operand::Operand;
use steps::answer::{
    LITERAL, Stepped, answered, is_inner, is_refusal, local, refused, reg_of, value_of,
};
use steps::counted;
use steps::sources::{field_of, first_of};
use steps::step::{destination, emit, given_back, load_constant, patch_to_next, store};
use syntax::ast::node_of;
use syntax::kind::Kind;
use syntax::ops::{BinaryOp, UnaryOp};
use words::word;

impl NodeRef<'_> {
    // A node as an expression, by its kind. A literal is answered by the word LITERAL, and nothing is done. The arms that go deep are asked for first: the compiler inlines what it
    // takes for frequent. As one `match` on the kind, deep and bushy trees took a fifth more time.
    #[cycle(walk)]
    fn lower_expression(
        self,
        buffers: &mut Buffers,
        state: State,
        dest: Option<u32>,
    ) -> Stepped<State>
        requires { Aimed dest }
        ensures lowers { Walks (λ t. operand_at (node_at t.nodes self.entry.index)) (λ t. lower_expression free_temp t self.entry.index (dest_of dest)) self.entry.arena.now buffers.old buffers.new state result }
        ensures kept { Kept buffers.old buffers.new }
    {
        let kind = self.kind();
        let s = state;
        if kind.jumps() {
            if kind == Kind::If {
                return self.lower_if(buffers, s, dest);
            }
            return self.logical(buffers, s, dest);
        }
        if kind.is_leaf_or_operator() {
            if kind == Kind::Binary {
                return self.lower_binary(buffers, s, dest);
            }
            if kind.is_literal() {
                return answered(s, LITERAL);
            }
            if kind == Kind::Identifier {
                return self.lower_name(buffers, s, dest);
            }
            return self.lower_unary(buffers, s, dest);
        }
        match kind {
            Kind::Block => self.lower_block(buffers, s, dest),
            Kind::FunctionCall => self.lower_call(buffers, s, dest),
            Kind::PropertyAccess => self.property(buffers, s, dest),
            _ => self.lower_map(buffers, s, dest),
        }
    }

    // A child that was tried by a peek: it is done, or the node that the peek answers is walked, from the state before the peek.
    #[cycle(walk)]
    pub(crate) fn lower_materializing(
        self,
        buffers: &mut Buffers,
        state: State,
        peeked: Stepped<State>,
        dest: Option<u32>,
    ) -> Stepped<State>
        requires { is_inner peeked.answer ≡ true → ((value_of peeked.answer ≤ self.index) × Aimed dest) }
        ensures walked { is_inner peeked.answer ≡ true → Walks (λ t. operand_at (node_at t.nodes (value_of peeked.answer))) (λ t. lower_expression free_temp t (value_of peeked.answer) (dest_of dest)) self.entry.arena.now buffers.old buffers.new state result }
        ensures done { is_inner peeked.answer ≡ false → (result ≡ peeked) × Untouched buffers.old buffers.new }
        ensures kept { Kept buffers.old buffers.new }
    {
        let answer = peeked.answer;
        if is_inner(answer) {
            let t = state;
            let node = NodeRef {
                arena: self.arena,
                index: value_of(answer),
            };
            return node.lower_expression(buffers, t, dest);
        }
        peeked
    }

    // Name: its own register, or a Move if another destination was given. Takes nothing.
    fn lower_name(self, buffers: &mut Buffers, state: State, dest: Option<u32>) -> Stepped<State>
        requires { (word_at self 0 ≡ name_kind) × Aimed dest }
        ensures lowers { settled (lower_expression free_temp (arena_tree self.entry.arena.now) self.entry.index (dest_of dest) (made_of buffers.old state))
            ≡ seen (arena_tree self.entry.arena.now) (operand_at (tree_node self.entry)) (made_of buffers.new result.after) result.answer }
        ensures kept { Kept buffers.old buffers.new }
    {
        let f = self.name_into(buffers, state.counts, dest);
        f.on(state)
    }

    // Binary: destination first, left, right, then constants pooled, one instruction. Gives back what the operands held.
    #[cycle(walk)]
    fn lower_binary(self, buffers: &mut Buffers, state: State, dest: Option<u32>) -> Stepped<State>
        requires { Aimed dest × (word_at self 0 ≡ binary_kind) }
        ensures lowers { Walks (λ t. operand_at (node_at t.nodes self.entry.index)) (λ t. lower_expression free_temp t self.entry.index (dest_of dest)) self.entry.arena.now buffers.old buffers.new state result }
        ensures kept { Kept buffers.old buffers.new }
    {
        let left = NodeRef {
            arena: self.arena,
            index: self.word(2),
        };
        let right = NodeRef {
            arena: self.arena,
            index: self.word(3),
        };
        let t = destination(state, dest);
        if is_refusal(t.answer) {
            return t;
        }
        let d = value_of(t.answer);
        let s1 = t.after;
        let f1 = left.peek(buffers, s1, Asked::Operand);
        let r1 = left.lower_materializing(buffers, s1, f1, None);
        if is_refusal(r1.answer) {
            return r1;
        }
        let src1 = value_of(r1.answer);
        let s2 = r1.after;
        let f2 = right.peek(buffers, s2, Asked::Operand);
        let r2 = right.lower_materializing(buffers, s2, f2, None);
        if is_refusal(r2.answer) {
            return r2;
        }
        let src2 = value_of(r2.answer);
        let s3 = r2.after;
        if (src1 == LITERAL) & (src2 == LITERAL) {
            return self.lower_literals(buffers, s3, d);
        }
        let f = self.binary_operation(buffers, s3.counts, d, src1, src2);
        let e = f.on(s3);
        if is_refusal(e.answer) {
            return e;
        }
        let mut s = e.after;
        let held = s.registers;
        let held1 = held.give_back(src1);
        let held2 = held1.give_back(src2);
        s.registers = held2;
        answered(s, d)
    }

    // Binary, "Two literals are both loaded": each into a register that is taken, both given back. The last lines are those of `lower_binary` again: with one function
    // for both ends, or with `given_back` called twice in each, bushy trees took a tenth more time.
    fn lower_literals(self, buffers: &mut Buffers, state: State, d: u32) -> Stepped<State>
        requires { word_at self 0 ≡ binary_kind }
        ensures by_index { settled (lower_literals (arena_tree self.entry.arena.now) (binary_op (word_at self.entry 1)) (word_at self.entry 2) (word_at self.entry 3) (register_at d) (made_of buffers.old state))
            ≡ seen (arena_tree self.entry.arena.now) (λ w. Operand.Register (register_at w)) (made_of buffers.new result.after) result.answer }
        ensures word { DestOrRefusal d result.answer }
        ensures kept { Kept buffers.old buffers.new }
    {
        let left = NodeRef {
            arena: self.arena,
            index: self.word(2),
        };
        let right = NodeRef {
            arena: self.arena,
            index: self.word(3),
        };
        let r1 = load_constant(buffers.code, buffers.constants, state, left.literal(), None);
        if is_refusal(r1.answer) {
            return r1;
        }
        let s1 = r1.after;
        let src1 = value_of(r1.answer);
        let r2 = load_constant(buffers.code, buffers.constants, s1, right.literal(), None);
        if is_refusal(r2.answer) {
            return r2;
        }
        let s2 = r2.after;
        let src2 = value_of(r2.answer);
        let operator = BinaryOp::of(self.word(1));
        let swap = swaps(operator);
        let a = first_of(swap, reg_of(src1), reg_of(src2));
        let b = first_of(swap, reg_of(src2), reg_of(src1));
        let e = emit(buffers.code, s2, binary_rr(operator), reg_of(d), a, b);
        if is_refusal(e.answer) {
            return e;
        }
        let mut s = e.after;
        let held = s.registers;
        let held1 = held.give_back(src1);
        let held2 = held1.give_back(src2);
        s.registers = held2;
        answered(s, d)
    }

    // The operand of a unary operator or of not, and its opcode.
    #[tactic(auto, unfolding(crate::specs::Kinds::only_operand))]
    fn only_operand(self) -> u32
        ensures { result ≡ only_operand self.entry.arena.now.nodes.now self.entry.index }
    {
        if self.kind() == Kind::Unary {
            return self.word(2);
        }
        self.word(1)
    }

    #[tactic(auto, unfolding(runtime::specs::Instruction::words_of))]
    fn only_opcode(self) -> Opcode
        ensures unary { word_at self.entry 0 ≡ unary_kind → (d a : ℕ) → words_of (unary (unary_op (word_at self.entry 1)) d a) ≡ opcode_number result ∷ d ∷ a ∷ 0 ∷ [] }
        ensures not { word_at self.entry 0 ≢ unary_kind → (d a : ℕ) → words_of (Instruction.Not d a) ≡ opcode_number result ∷ d ∷ a ∷ 0 ∷ [] }
    {
        if self.kind() == Kind::Unary {
            return unary(UnaryOp::of(self.word(1)));
        }
        Opcode::Not
    }

    // Unary, not: destination, operand, one instruction. Gives back what the operand held.
    #[cycle(walk)]
    fn lower_unary(self, buffers: &mut Buffers, state: State, dest: Option<u32>) -> Stepped<State>
        requires { Aimed dest × ((word_at self 0 ≡ unary_kind) ⊎ (word_at self 0 ≡ not_kind)) }
        ensures lowers { Walks (λ t. operand_at (node_at t.nodes self.entry.index)) (λ t. lower_expression free_temp t self.entry.index (dest_of dest)) self.entry.arena.now buffers.old buffers.new state result }
        ensures kept { Kept buffers.old buffers.new }
    {
        let operand = NodeRef {
            arena: self.arena,
            index: self.only_operand(),
        };
        let t = destination(state, dest);
        if is_refusal(t.answer) {
            return t;
        }
        let d = value_of(t.answer);
        let s1 = t.after;
        let f1 = operand.peek(buffers, s1, Asked::Register);
        let r1 = operand.lower_materializing(buffers, s1, f1, None);
        if is_refusal(r1.answer) {
            return r1;
        }
        let src = value_of(r1.answer);
        let s = r1.after;
        let opcode = self.only_opcode();
        let e = emit(buffers.code, s, opcode, reg_of(d), reg_of(src), 0);
        if is_refusal(e.answer) {
            return e;
        }
        answered(given_back(e.after, src), d)
    }

    // The jump over the right side of and, or.
    #[tactic(auto, unfolding(runtime::specs::Instruction::words_of))]
    fn logical_jump(self) -> Opcode
        ensures and { word_at self.entry 0 ≡ and_kind → (a : ℕ) → words_of (Instruction.JumpIfFalse a 0) ≡ opcode_number result ∷ a ∷ 0 ∷ 0 ∷ [] }
        ensures or { word_at self.entry 0 ≢ and_kind → (a : ℕ) → words_of (Instruction.JumpIfTrue a 0) ≡ opcode_number result ∷ a ∷ 0 ∷ 0 ∷ [] }
    {
        if self.kind() == Kind::LogicalAnd {
            return Opcode::JumpIfFalse;
        }
        Opcode::JumpIfTrue
    }

    // And, or: left into the destination, jump, right into the same. Gives nothing back.
    #[cycle(walk)]
    fn logical(self, buffers: &mut Buffers, state: State, dest: Option<u32>) -> Stepped<State>
        requires { Aimed dest × ((word_at self 0 ≡ and_kind) ⊎ (word_at self 0 ≡ or_kind)) }
        ensures lowers { Walks (λ t. operand_at (node_at t.nodes self.entry.index)) (λ t. lower_expression free_temp t self.entry.index (dest_of dest)) self.entry.arena.now buffers.old buffers.new state result }
        ensures kept { Kept buffers.old buffers.new }
    {
        let left = NodeRef {
            arena: self.arena,
            index: self.word(1),
        };
        let right = NodeRef {
            arena: self.arena,
            index: self.word(2),
        };
        let t = destination(state, dest);
        if is_refusal(t.answer) {
            return t;
        }
        let d = value_of(t.answer);
        let s1 = t.after;
        let f1 = left.peek_into(buffers, s1, d);
        let r1 = left.lower_materializing(buffers, s1, f1, Some(d));
        if is_refusal(r1.answer) {
            return r1;
        }
        let s1 = r1.after;
        let opcode = self.logical_jump();
        let e = emit(buffers.code, s1, opcode, reg_of(d), 0, 0);
        if is_refusal(e.answer) {
            return e;
        }
        let s = e.after;
        let place = value_of(e.answer);
        let f2 = right.peek_into(buffers, s, d);
        let r2 = right.lower_materializing(buffers, s, f2, Some(d));
        if is_refusal(r2.answer) {
            return r2;
        }
        let s2 = r2.after;
        patch_to_next(buffers.code, place, s2.counts.instructions);
        answered(s2, d)
    }

    // If: condition, destination, then, jump, else. What the condition holds stays held.
    #[cycle(walk)]
    fn lower_if(self, buffers: &mut Buffers, state: State, dest: Option<u32>) -> Stepped<State>
        requires { Aimed dest × (word_at self 0 ≡ if_kind) }
        ensures lowers { Walks (λ t. operand_at (node_at t.nodes self.entry.index)) (λ t. lower_expression free_temp t self.entry.index (dest_of dest)) self.entry.arena.now buffers.old buffers.new state result }
        ensures kept { Kept buffers.old buffers.new }
    {
        let condition = NodeRef {
            arena: self.arena,
            index: self.word(1),
        };
        let then_branch = NodeRef {
            arena: self.arena,
            index: self.word(2),
        };
        let r = condition.lower_jump_if_false(buffers, state);
        if is_refusal(r.answer) {
            return r;
        }
        let jump_if_false = value_of(r.answer);
        let s0 = r.after;
        let t = destination(s0, dest);
        if is_refusal(t.answer) {
            return t;
        }
        let d = value_of(t.answer);
        let s1 = t.after;
        let f1 = then_branch.peek_into(buffers, s1, d);
        let r1 = then_branch.lower_materializing(buffers, s1, f1, Some(d));
        if is_refusal(r1.answer) {
            return r1;
        }
        let s2 = r1.after;
        let e = emit(buffers.code, s2, Opcode::Jump, 0, 0, 0);
        if is_refusal(e.answer) {
            return e;
        }
        let s = e.after;
        let jump_end = value_of(e.answer);
        patch_to_next(buffers.code, jump_if_false, s.counts.instructions);
        let Some(index) = node_of(self.word(3)) else {
            return refused(s, Refusal::Else, self.index);
        };
        let else_branch = NodeRef {
            arena: self.arena,
            index,
        };
        let f2 = else_branch.peek_into(buffers, s, d);
        let r2 = else_branch.lower_materializing(buffers, s, f2, Some(d));
        if is_refusal(r2.answer) {
            return r2;
        }
        let s2 = r2.after;
        patch_to_next(buffers.code, jump_end, s2.counts.instructions);
        answered(s2, d)
    }

    // Block: destination, then the tail or nil.
    #[cycle(walk)]
    fn lower_block(self, buffers: &mut Buffers, state: State, dest: Option<u32>) -> Stepped<State>
        requires { Aimed dest × (word_at self 0 ≡ block_kind) }
        ensures lowers { Walks (λ t. operand_at (node_at t.nodes self.entry.index)) (λ t. lower_expression free_temp t self.entry.index (dest_of dest)) self.entry.arena.now buffers.old buffers.new state result }
        ensures kept { Kept buffers.old buffers.new }
    {
        let t = destination(state, dest);
        if is_refusal(t.answer) {
            return t;
        }
        let d = value_of(t.answer);
        let s = t.after;
        let Some(index) = node_of(self.word(1)) else {
            let u = s;
            let r = load_constant(buffers.code, buffers.constants, u, Operand::Nil, Some(d));
            if is_refusal(r.answer) {
                return r;
            }
            let s1 = r.after;
            return answered(s1, d);
        };
        let tail = NodeRef {
            arena: self.arena,
            index,
        };
        let f1 = tail.peek_into(buffers, s, d);
        let r1 = tail.lower_materializing(buffers, s, f1, Some(d));
        if is_refusal(r1.answer) {
            return r1;
        }
        let s2 = r1.after;
        answered(s2, d)
    }

    // Call: the arguments; then destination, callee, Call. Gives back what the callee held.
    #[cycle(walk)]
    fn lower_call(self, buffers: &mut Buffers, state: State, dest: Option<u32>) -> Stepped<State>
        requires { Aimed dest × (word_at self 0 ≡ call_kind) }
        ensures lowers { Walks (λ t. operand_at (node_at t.nodes self.entry.index)) (λ t. lower_expression free_temp t self.entry.index (dest_of dest)) self.entry.arena.now buffers.old buffers.new state result }
        ensures kept { Kept buffers.old buffers.new }
    {
        let callee = NodeRef {
            arena: self.arena,
            index: self.word(1),
        };
        let count = self.word(3);
        let a = self.arguments(buffers, state);
        if is_refusal(a.answer) {
            return a;
        }
        let s0 = a.after;
        let t = destination(s0, dest);
        if is_refusal(t.answer) {
            return t;
        }
        let d = value_of(t.answer);
        let s1 = t.after;
        let f1 = callee.peek(buffers, s1, Asked::Register);
        let r1 = callee.lower_materializing(buffers, s1, f1, None);
        if is_refusal(r1.answer) {
            return r1;
        }
        let src = value_of(r1.answer);
        let s = r1.after;
        let e = emit(buffers.code, s, Opcode::Call, reg_of(d), reg_of(src), count);
        if is_refusal(e.answer) {
            return e;
        }
        answered(given_back(e.after, src), d)
    }

    // The arguments of a call: argument i into local i, and the last instruction marked.
    #[cycle(walk)]
    fn arguments(self, buffers: &mut Buffers, state: State) -> Stepped<State>
        requires { word_at self 0 ≡ call_kind }
        ensures lowers { Walks (λ t. unit_at) (λ t. lower_arguments t (lower_expression free_temp t) self.entry.index (word_at self.entry 2) (word_at self.entry 3) 0) self.entry.arena.now buffers.old buffers.new state result }
        ensures kept { Kept buffers.old buffers.new }
    {
        let first = self.word(2) as usize;
        let count = self.word(3);
        let mut s = state;
        for i in 0..count {
            let argument = NodeRef {
                arena: self.arena,
                index: word(self.arena.list, first + (i as usize)),
            };
            let d = local(i);
            let f1 = argument.peek_into(buffers, s, d);
            let r1 = argument.lower_materializing(buffers, s, f1, Some(d));
            if is_refusal(r1.answer) {
                return r1;
            }
            let s1 = r1.after;
            s = s1;
            // Asked here, since this refusal names the call; `mark_argument`, which is public, asks too, of whoever calls it.
            if s.counts.instructions == 0 {
                return refused(s, Refusal::Unmarked, self.index);
            }
            let marked = mark_argument(buffers.marks, s.marks, s.counts.instructions);
            match marked.place {
                Ok(_) => s.marks = marked.count,
                Err(refusal) => return refused(s, refusal, 0),
            }
        }
        answered(s, 0)
    }

    // Property: destination, object, key pooled. Gives back what the object held.
    #[cycle(walk)]
    fn property(self, buffers: &mut Buffers, state: State, dest: Option<u32>) -> Stepped<State>
        requires { Aimed dest × (word_at self 0 ≡ property_kind) }
        ensures lowers { Walks (λ t. operand_at (node_at t.nodes self.entry.index)) (λ t. lower_expression free_temp t self.entry.index (dest_of dest)) self.entry.arena.now buffers.old buffers.new state result }
        ensures kept { Kept buffers.old buffers.new }
    {
        let object = NodeRef {
            arena: self.arena,
            index: self.word(1),
        };
        let property = self.word(2);
        let t = destination(state, dest);
        if is_refusal(t.answer) {
            return t;
        }
        let d = value_of(t.answer);
        let s1 = t.after;
        let f1 = object.peek(buffers, s1, Asked::Register);
        let r1 = object.lower_materializing(buffers, s1, f1, None);
        if is_refusal(r1.answer) {
            return r1;
        }
        let src = value_of(r1.answer);
        let s = r1.after;
        let p = store(buffers.constants, s, Operand::String(property));
        if is_refusal(p.answer) {
            return p;
        }
        let k = value_of(p.answer);
        let s2 = p.after;
        let e = emit(
            buffers.code,
            s2,
            Opcode::GetPropertyK,
            reg_of(d),
            reg_of(src),
            k,
        );
        if is_refusal(e.answer) {
            return e;
        }
        answered(given_back(e.after, src), d)
    }

    // Map: CreateMap, then entry by entry. What the entries hold stays held.
    #[cycle(walk)]
    fn lower_map(self, buffers: &mut Buffers, state: State, dest: Option<u32>) -> Stepped<State>
        requires { Aimed dest × (word_at self 0 ≡ map_kind) }
        ensures lowers { Walks (λ t. operand_at (node_at t.nodes self.entry.index)) (λ t. lower_expression free_temp t self.entry.index (dest_of dest)) self.entry.arena.now buffers.old buffers.new state result }
        ensures kept { Kept buffers.old buffers.new }
    {
        let first = self.word(1) as usize;
        let count = self.word(2);
        let t = destination(state, dest);
        if is_refusal(t.answer) {
            return t;
        }
        let d = value_of(t.answer);
        let s0 = t.after;
        let e = emit(buffers.code, s0, Opcode::CreateMap, reg_of(d), 0, 0);
        if is_refusal(e.answer) {
            return e;
        }
        let mut s = e.after;
        for i in 0..count {
            let at = first + 2 * (i as usize);
            let key = NodeRef {
                arena: self.arena,
                index: word(self.arena.list, at),
            };
            let value = word(self.arena.list, at + 1);
            let f = key.flat_entry(buffers, s.counts, d, value);
            let answer = f.answer;
            if is_inner(answer) {
                let u = s;
                let r = self.entry(buffers, u, d, key.index, value);
                if is_refusal(r.answer) {
                    return r;
                }
                let s1 = r.after;
                s = s1;
            } else if is_refusal(answer) {
                return f.on(s);
            } else {
                s.counts = f.after;
            }
        }
        answered(s, d)
    }

    // One entry that was left to the walk, so it has a value. A key that is a name or a literal is pooled after the value is lowered; any other key is lowered
    // before its value.
    // Key and value are words here: as nodes they would have to be of this node's arena, which is one clause more.
    #[cycle(walk)]
    fn entry(
        self,
        buffers: &mut Buffers,
        state: State,
        d: u32,
        key: u32,
        value: u32,
    ) -> Stepped<State>
        requires { EntryBelow self.index key value }
        ensures lowers { Walks (λ t. place_at) (λ t. lower_entry t (lower_expression free_temp t) (register_at d) key value (name_of (node_at t.nodes key))) self.entry.arena.now buffers.old buffers.new state result }
        ensures kept { Kept buffers.old buffers.new }
    {
        let key = NodeRef {
            arena: self.arena,
            index: key,
        };
        let value = NodeRef {
            arena: self.arena,
            index: value,
        };
        if key.kind().is_leaf() {
            let f1 = value.peek(buffers, state, Asked::Operand);
            let r1 = value.lower_materializing(buffers, state, f1, None);
            if is_refusal(r1.answer) {
                return r1;
            }
            let s1 = r1.after;
            let src = value_of(r1.answer);
            return key.set_property(buffers, s1, d, value, LITERAL, src);
        }
        let f2 = key.peek(buffers, state, Asked::Operand);
        let r2 = key.lower_materializing(buffers, state, f2, None);
        if is_refusal(r2.answer) {
            return r2;
        }
        let src1 = value_of(r2.answer);
        let s2 = r2.after;
        let f3 = value.peek(buffers, s2, Asked::Operand);
        let r3 = value.lower_materializing(buffers, s2, f3, None);
        if is_refusal(r3.answer) {
            return r3;
        }
        let src2 = value_of(r3.answer);
        let s3 = r3.after;
        key.set_property(buffers, s3, d, value, src1, src2)
    }

    // The end of an entry: "Literals left over are pooled last, key before value."
    fn set_property(
        self,
        buffers: &mut Buffers,
        state: State,
        d: u32,
        value: NodeRef,
        src1: u32,
        src2: u32,
    ) -> Stepped<State>
        ensures lowers { (t : Tree) (E : ℕ → Option Register → Walk Operand) → settled (store_keyed t E (register_at d) (source_at (key_operand (tree_node self.entry)) src1) (source_at (literal (tree_node value.entry)) src2)
            (made_of buffers.old state))
            ≡ seen t place_at (made_of buffers.new result.after) result.answer }
        ensures kept { Kept buffers.old buffers.new }
    {
        let counts = state.counts;
        let first_field = field_of(buffers.constants, counts, src1, self.key_operand());
        if is_refusal(first_field.answer) {
            return first_field.on(state);
        }
        let first = value_of(first_field.answer);
        let pooled = first_field.after;
        let second_field = field_of(buffers.constants, pooled, src2, value.literal());
        if is_refusal(second_field.answer) {
            return second_field.on(state);
        }
        let second = value_of(second_field.answer);
        let opcode = set_opcode(src1, src2);
        let e = counted::emit(
            buffers.code,
            second_field.after,
            opcode,
            reg_of(d),
            first,
            second,
        );
        e.on(state)
    }

    // A node as a condition: the place of the jump that is taken where it is false. What it holds stays held.
    #[cycle(walk)]
    fn lower_jump_if_false(self, buffers: &mut Buffers, state: State) -> Stepped<State>
        ensures lowers { Walks (λ t. place_at) (λ t. lower_jump_if_false free_temp t self.entry.index) self.entry.arena.now buffers.old buffers.new state result }
        ensures kept { Kept buffers.old buffers.new }
    {
        let f = self.peek_jump(buffers, state, false);
        let answer = f.answer;
        if is_inner(answer) {
            let t = state;
            return self.lower_jump_if(buffers, t, false);
        }
        f
    }

    // A node as a condition, not tried first: `lower_jump_if_false` and `lower_jump_if_true`, by the outcome at which the jump is taken.
    #[cycle(walk)]
    pub(crate) fn lower_jump_if(
        self,
        buffers: &mut Buffers,
        state: State,
        sense: bool,
    ) -> Stepped<State>
        ensures lowers { Walks (λ t. place_at) (λ t. jump_node t (lower_expression free_temp t) sense (lower_expression free_temp t self.entry.index) (node_at t.nodes self.entry.index)) self.entry.arena.now buffers.old buffers.new state result }
        ensures kept { Kept buffers.old buffers.new }
    {
        if self.is_compared() {
            return self.fuse(buffers, state, sense);
        }
        self.test(buffers, state, sense)
    }

    // Whether a condition is a comparison, whose jump is fused.
    #[tactic(auto, using(crate::proofs::Reading::node_other), unfolding(crate::specs::Kinds::is_compared, syntax::specs::Ast::node_at))]
    fn is_compared(self) -> bool
        ensures { result ≡ is_compared (tree_node self.entry) }
    {
        if self.kind() == Kind::Binary {
            return is_comparison(BinaryOp::of(self.word(1)));
        }
        false
    }

    // A node in a register, then JumpIfFalse or JumpIfTrue. Its place is the answer.
    #[cycle(walk)]
    fn test(self, buffers: &mut Buffers, state: State, sense: bool) -> Stepped<State>
        ensures lowers { Walks (λ t. place_at) (λ t. test t (lower_expression free_temp t) sense (lower_expression free_temp t self.entry.index)) self.entry.arena.now buffers.old buffers.new state result }
        ensures kept { Kept buffers.old buffers.new }
    {
        let t = state;
        let r = if self.kind().is_literal() {
            load_constant(buffers.code, buffers.constants, t, self.literal(), None)
        } else {
            self.lower_expression(buffers, t, None)
        };
        if is_refusal(r.answer) {
            return r;
        }
        let src = value_of(r.answer);
        let s = r.after;
        emit(buffers.code, s, jump_if(sense), reg_of(src), 0, 0)
    }

    // Left, right, constants pooled, one fused jump; two literals are tested like anything else. No destination is taken, nothing is given back.
    #[cycle(walk)]
    fn fuse(self, buffers: &mut Buffers, state: State, sense: bool) -> Stepped<State>
        requires { is_compared (tree_node self) ≡ true }
        ensures lowers { Walks (λ t. place_at) (λ t. jump_node t (lower_expression free_temp t) sense (lower_expression free_temp t self.entry.index) (node_at t.nodes self.entry.index)) self.entry.arena.now buffers.old buffers.new state result }
        ensures kept { Kept buffers.old buffers.new }
    {
        let left = NodeRef {
            arena: self.arena,
            index: self.word(2),
        };
        let right = NodeRef {
            arena: self.arena,
            index: self.word(3),
        };
        let s0 = state;
        let f1 = left.peek(buffers, s0, Asked::Operand);
        let r1 = left.lower_materializing(buffers, s0, f1, None);
        if is_refusal(r1.answer) {
            return r1;
        }
        let src1 = value_of(r1.answer);
        let s1 = r1.after;
        let f2 = right.peek(buffers, s1, Asked::Operand);
        let r2 = right.lower_materializing(buffers, s1, f2, None);
        if is_refusal(r2.answer) {
            return r2;
        }
        let src2 = value_of(r2.answer);
        let s = r2.after;
        if (src1 == LITERAL) & (src2 == LITERAL) {
            let u = s;
            return self.test(buffers, u, sense);
        }
        let f = self.fused_jump(buffers, s.counts, sense, src1, src2);
        f.on(s)
    }
}
