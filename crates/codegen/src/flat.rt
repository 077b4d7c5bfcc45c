// Flat nodes: literals, names, and operators on these, not on two literals. They are lowered without the walk, on two counts and a register that is given.
// `peek`, `peek_into` and `peek_jump` try a child, and `flat_entry` an entry of a map; `binary_operation` and `fused_jump` end an operator whose operands the
// walk has lowered.
ghost use Rattle.std.specs.Prelude.{◌≡◌, ◌≢◌, ◌⊎◌, true, false, cond, ◌&&◌, List, ℕ, ◌+◌, ◌≤◌, ◌<◌, leb, eqb, length, Option, Some, None, Ok, Err};
ghost use Rattle.words.specs.Words.{words};
ghost use Rattle.environment.specs.declared.Register.{Register};
ghost use Rattle.environment.specs.declared.RegisterSet.{RegisterSet};
ghost use Rattle.environment.specs.Environment.{lookup};
ghost use Rattle.syntax.specs.declared.ops.Comparison.{Comparison};
ghost use Rattle.syntax.specs.Ops.{binary_op};
ghost use Rattle.syntax.specs.Ast.{absent, node_at};
ghost use Rattle.runtime.specs.declared.operand.Operand.{Operand};
ghost use Rattle.lowering.specs.Tree.{Tree, tree_of};
ghost use Rattle.lowering.specs.Checked.{Checked};
ghost use Rattle.lowering.specs.Walk.{Made, Walk, ret};
ghost use Rattle.lowering.specs.Operators.{comparison};
ghost use Rattle.lowering.specs.Literals.{literal};
ghost use Rattle.lowering.specs.Steps.{free_temp, load_constant};
ghost use Rattle.lowering.specs.Lower.{binary_sources, fused_sources, name_of, lower_entry, jump_node, lower_expression, lower_materializing};
ghost use Rattle.steps.specs.Answers.{register_at, dest_of, Aimed, any, literal_word, operand_at, source_at, place_at, settled, seen, state_of, is_inner, value_of, word_end, DestOrRefusal, WordOrRefusal};
ghost use Rattle.codegen.specs.Walks.{arena_tree, word_at, tree_node, has_leaves, Kept, made_of, Untouched, NothingDone, LeafWord};
ghost use Rattle.codegen.specs.Ready.{InArena, node_word_of};
ghost use Rattle.codegen.specs.Kinds.{name_kind, binary_kind, key_operand, set_opcode};
ghost use Rattle.codegen.specs.declared.flat.Asked.{Asked};
ghost use Rattle.codegen.specs.Flat.{Given, is_flat, found_at, LocalOr, needing, flat_node};

use crate::arena::{Buffers, NodeRef};
use diagnostics::Refusal;
use lowering::{Counts, State};
use operators::{is_comparison, jump_if};
use runtime::opcode::Opcode;
use runtime::operand::Operand;
use steps::answer::{
    LITERAL, NONE, Stepped, answered, is_refusal, left_to_walk, number_at, refused, reg_of,
    value_of,
};
use steps::counted::{constant_into, emit, store};
use steps::sources::{binary_sources, field_of, fused_sources};
use syntax::ast::node_of;
use syntax::kind::Kind;
use syntax::ops::BinaryOp;

// What is asked of a flat node: its operand (a literal stays one), its value in a register, or its value in the register given. The register d stands beside it and not in
// it, since all three have one: for the first two, `peek` takes a register before it is known whether the node needs it.
#[derive(Clone, Copy, PartialEq, Eq)]
pub(crate) enum Asked {
    Operand,
    Register,
    Into,
}

impl NodeRef<'_> {
    // The node that a block comes to, where the destination is given: its tail's tail, and so on. A `loop`: it follows the tails, and counts nothing.
    fn tail_of(self) -> u32
        ensures inside { result ≤ self.entry.index }
        ensures same { (d : Register) (m : Made) →
            lower_materializing (lower_expression free_temp (arena_tree self.entry.arena.now) self.entry.index) (Some d) m
            ≡ lower_materializing (lower_expression free_temp (arena_tree self.entry.arena.now) result) (Some d) m }
    {
        let mut n = self.index;
        loop {
            let node = NodeRef {
                arena: self.arena,
                index: n,
            };
            if node.kind() != Kind::Block {
                return n;
            }
            let Some(tail) = node_of(node.word(1)) else {
                return n;
            };
            n = tail;
        }
    }

    // A leaf with no destination: LITERAL, or the register of a name, if it is declared.
    fn leaf_operand(self) -> Option<u32>
        ensures name { word_at self.entry 0 ≡ name_kind →
            (found_at result ≡ lookup (words self.entry.arena.now.names.now) (length (words self.entry.arena.now.names.now)) (word_at self.entry 1)) × LocalOr result }
        ensures literal { word_at self.entry 0 ≢ name_kind → result ≡ Some literal_word }
    {
        if self.kind() == Kind::Identifier {
            return self.find();
        }
        Some(LITERAL)
    }

    // The operands of an operator on two leaves; or the leaf whose name is not declared, the left one first.
    fn leaf_operands(self) -> Result<(u32, u32), u32>
        requires { word_at self 0 ≡ binary_kind }
        ensures operands { (v w : ℕ) → result ≡ Ok (v, w) → LeafWord self.entry.arena.now (word_at self.entry 2) (Some v) × LeafWord self.entry.arena.now (word_at self.entry 3) (Some w) }
        ensures undeclared { (leaf : ℕ) → result ≡ Err leaf → ((leaf ≡ word_at self.entry 2) × LeafWord self.entry.arena.now (word_at self.entry 2) None)
            ⊎ ((leaf ≡ word_at self.entry 3) × (((v : ℕ) × LeafWord self.entry.arena.now (word_at self.entry 2) (Some v)) × LeafWord self.entry.arena.now (word_at self.entry 3) None)) }
    {
        let left = NodeRef {
            arena: self.arena,
            index: self.word(2),
        };
        let right = NodeRef {
            arena: self.arena,
            index: self.word(3),
        };
        let src1 = left.leaf_operand().ok_or(left.index)?;
        let src2 = right.leaf_operand().ok_or(right.index)?;
        Ok((src1, src2))
    }

    // A literal in d, if there is a register: pool, LoadConst.
    #[tactic(auto, using(steps::proofs::Words::refusal_start_lem))]
    fn literal_into(self, buffers: &mut Buffers, counts: Counts, d: u32) -> Stepped<Counts>
        ensures step { (t : Tree) (rs : RegisterSet) (n : ℕ) →
            settled (needing d (load_constant (literal (tree_node self.entry)) (Some (register_at d)))
            (made_of buffers.old (state_of rs counts n)))
            ≡ seen t register_at (made_of buffers.new (state_of rs result.after n)) result.answer }
        ensures word { DestOrRefusal d result.answer }
        ensures kept { Kept buffers.old buffers.new }
    {
        if d == NONE {
            return refused(counts, Refusal::Registers, 0);
        }
        constant_into(buffers.code, buffers.constants, counts, self.literal(), d)
    }

    // A name: its own register, or a Move if another one is given.
    #[tactic(auto, using(steps::proofs::Words::refusal_start_lem))]
    pub(crate) fn name_into(
        self,
        buffers: &mut Buffers,
        counts: Counts,
        dest: Option<u32>,
    ) -> Stepped<Counts>
        requires { (word_at self 0 ≡ name_kind) × Aimed dest }
        ensures step { (rs : RegisterSet) (n : ℕ) →
            settled (lower_expression free_temp (arena_tree self.entry.arena.now) self.entry.index (dest_of dest)
            (made_of buffers.old (state_of rs counts n)))
            ≡ seen (arena_tree self.entry.arena.now) (operand_at (tree_node self.entry)) (made_of buffers.new (state_of rs result.after n)) result.answer }
        ensures word { WordOrRefusal result.answer }
        ensures kept { Kept buffers.old buffers.new }
    {
        let Some(register) = self.find() else {
            return refused(counts, Refusal::Undeclared, self.index);
        };
        let Some(d) = dest else {
            return answered(counts, register);
        };
        if d == register {
            return answered(counts, d);
        }
        let e = emit(
            buffers.code,
            counts,
            Opcode::Move,
            reg_of(d),
            reg_of(register),
            0,
        );
        if is_refusal(e.answer) {
            return e;
        }
        answered(e.after, d)
    }

    // Whether the operands of an operator are literals or names, and not both literals.
    #[tactic(auto, unfolding(crate::specs::Flat::are_leaves))]
    fn has_leaves(self) -> bool
        requires { word_at self 0 ≡ binary_kind }
        ensures { result ≡ has_leaves self.entry }
    {
        let left = NodeRef {
            arena: self.arena,
            index: self.word(2),
        };
        let right = NodeRef {
            arena: self.arena,
            index: self.word(3),
        };
        let a = left.kind();
        let b = right.kind();
        a.is_leaf() & b.is_leaf() & ((a == Kind::Identifier) | (b == Kind::Identifier))
    }

    // An operator on two leaves, with its value in d, if there is a register.
    #[tactic(auto, using(steps::proofs::Words::refusal_start_lem))]
    fn binary_into(self, buffers: &mut Buffers, counts: Counts, d: u32) -> Stepped<Counts>
        requires { (word_at self 0 ≡ binary_kind) × Given d }
        ensures step { (rs : RegisterSet) (n : ℕ) → has_leaves self.entry ≡ true →
            settled (needing d (lower_expression free_temp (arena_tree self.entry.arena.now) self.entry.index (Some (register_at d))) (made_of buffers.old (state_of rs counts n)))
            ≡ seen (arena_tree self.entry.arena.now) (operand_at (tree_node self.entry)) (made_of buffers.new (state_of rs result.after n)) result.answer }
        ensures inner { has_leaves self.entry ≡ false →
            (result ≡ record { after = counts; answer = word_end + self.entry.index }) × Untouched buffers.old buffers.new }
        ensures word { has_leaves self.entry ≡ true → DestOrRefusal d result.answer }
        ensures kept { Kept buffers.old buffers.new }
    {
        if !self.has_leaves() {
            return left_to_walk(counts, self.index);
        }
        if d == NONE {
            return refused(counts, Refusal::Registers, 0);
        }
        match self.leaf_operands() {
            Ok((src1, src2)) => self.binary_operation(buffers, counts, d, src1, src2),
            Err(leaf) => refused(counts, Refusal::Undeclared, leaf),
        }
    }

    // A flat node, with its value in d if it needs a register. For any other node it is left to the walk, and nothing is done. A chain of tests: as a `match` on the kind, names
    // took a quarter more time.
    #[tactic(auto, using(crate::proofs::FlatNodes::flat_leaf, crate::proofs::FlatNodes::flat_binary, crate::proofs::FlatNodes::flat_other, crate::proofs::FlatNodes::answer_word))]
    fn lower_flat(
        self,
        buffers: &mut Buffers,
        counts: Counts,
        asked: Asked,
        d: u32,
    ) -> Stepped<Counts>
        requires { Given d × (asked ≡ Asked.Into → d < any) }
        ensures step { (rs : RegisterSet) (n : ℕ) → is_flat self.entry.arena.now.nodes.now self.entry.index ≡ true →
            settled (flat_node (arena_tree self.entry.arena.now) asked d self.entry.index (made_of buffers.old (state_of rs counts n)))
            ≡ seen (arena_tree self.entry.arena.now) (operand_at (tree_node self.entry)) (made_of buffers.new (state_of rs result.after n)) result.answer }
        ensures inner { is_flat self.entry.arena.now.nodes.now self.entry.index ≡ false →
            (result ≡ record { after = counts; answer = word_end + self.entry.index }) × Untouched buffers.old buffers.new }
        ensures word { is_flat self.entry.arena.now.nodes.now self.entry.index ≡ true → WordOrRefusal result.answer }
        ensures kept { Kept buffers.old buffers.new }
    {
        let kind = self.kind();
        if kind.is_literal() {
            if asked == Asked::Operand {
                return answered(counts, LITERAL);
            }
            return self.literal_into(buffers, counts, d);
        }
        if kind == Kind::Identifier {
            let dest = if asked == Asked::Into { Some(d) } else { None };
            return self.name_into(buffers, counts, dest);
        }
        if kind != Kind::Binary {
            return left_to_walk(counts, self.index);
        }
        self.binary_into(buffers, counts, d)
    }

    // Whether a node may be flat, by its kind alone: most nodes that are not flat are told by it.
    fn is_simple(self) -> bool
        ensures { result ≡ leb (word_at self.entry 0) binary_kind }
    {
        self.kind() <= Kind::Binary
    }

    // A flat child with no destination: its operand, or its value in a register, which is taken if it needs one. Any other child is left to the walk, and
    // nothing is done.
    pub(crate) fn peek(self, buffers: &mut Buffers, state: State, asked: Asked) -> Stepped<State>
        requires { asked ≢ Asked.Into }
        ensures operand { is_inner result.answer ≡ false → asked ≡ Asked.Operand →
            settled (lower_expression free_temp (arena_tree self.entry.arena.now) self.entry.index None (made_of buffers.old state))
            ≡ seen (arena_tree self.entry.arena.now) (operand_at (tree_node self.entry)) (made_of buffers.new result.after) result.answer }
        ensures register { is_inner result.answer ≡ false → asked ≡ Asked.Register →
            settled (lower_materializing (lower_expression free_temp (arena_tree self.entry.arena.now) self.entry.index) None (made_of buffers.old state))
            ≡ seen (arena_tree self.entry.arena.now) register_at (made_of buffers.new result.after) result.answer }
        ensures inner { is_inner result.answer ≡ true → NothingDone buffers.old buffers.new state result × ((value_of result.answer ≡ self.entry.index) × (binary_kind ≤ word_at self.entry 0)) }
        ensures kept { Kept buffers.old buffers.new }
    {
        let mut s = state;
        if self.is_simple() {
            let registers = s.registers;
            let taken = registers.take();
            let set = taken.set;
            // NONE where no register is free: a word, for the reason at `number_at`.
            let register = number_at(taken.register);
            let f = self.lower_flat(buffers, s.counts, asked, register);
            // The register was used if it is the answer, so no flag is needed.
            if f.answer == (register as u64) {
                s.registers = set;
            }
            return f.on(s);
        }
        left_to_walk(s, self.index)
    }

    // A flat child in d; a block is its tail. Any other child is left to the walk, by the node that it comes to. `peek`, `peek_into` and `peek_jump` share the functions of
    // the nodes and end in `on`; what is left of each is what it asks and gives, which one function of all three would take as parameters.
    pub(crate) fn peek_into(self, buffers: &mut Buffers, state: State, d: u32) -> Stepped<State>
        requires { d < any }
        ensures done { is_inner result.answer ≡ false →
            settled (lower_materializing (lower_expression free_temp (arena_tree self.entry.arena.now) self.entry.index) (Some (register_at d)) (made_of buffers.old state))
            ≡ seen (arena_tree self.entry.arena.now) register_at (made_of buffers.new result.after) result.answer }
        ensures inner { is_inner result.answer ≡ true → NothingDone buffers.old buffers.new state result × ((value_of result.answer ≤ self.entry.index) × (binary_kind ≤ node_word_of self.entry.arena.now.nodes.now (value_of result.answer) 0)) }
        ensures same { (e : Register) (m : Made) → is_inner result.answer ≡ true →
            lower_materializing (lower_expression free_temp (arena_tree self.entry.arena.now) self.entry.index) (Some e) m
            ≡ lower_materializing (lower_expression free_temp (arena_tree self.entry.arena.now) (value_of result.answer)) (Some e) m }
        ensures kept { Kept buffers.old buffers.new }
    {
        let tail = NodeRef {
            arena: self.arena,
            index: self.tail_of(),
        };
        if tail.is_simple() {
            let f = tail.lower_flat(buffers, state.counts, Asked::Into, d);
            return f.on(state);
        }
        left_to_walk(state, tail.index)
    }

    // A name as a condition: the test of its own register. The jump's place is the answer.
    #[tactic(auto, using(steps::proofs::Words::refusal_start_lem))]
    fn name_tested(self, buffers: &mut Buffers, counts: Counts, sense: bool) -> Stepped<Counts>
        requires { word_at self 0 ≡ name_kind }
        ensures step { (rs : RegisterSet) (n : ℕ) →
            settled (jump_node (arena_tree self.entry.arena.now) (lower_expression free_temp (arena_tree self.entry.arena.now)) sense (lower_expression free_temp (arena_tree self.entry.arena.now) self.entry.index) (tree_node self.entry)
            (made_of buffers.old (state_of rs counts n)))
            ≡ seen (arena_tree self.entry.arena.now) place_at (made_of buffers.new (state_of rs result.after n)) result.answer }
        ensures word { WordOrRefusal result.answer }
        ensures kept { Kept buffers.old buffers.new }
    {
        let Some(register) = self.find() else {
            return refused(counts, Refusal::Undeclared, self.index);
        };
        emit(buffers.code, counts, jump_if(sense), reg_of(register), 0, 0)
    }

    // A comparison of two leaves as a condition: the fused jump. Any other operator is left to the walk. It and `binary_into` have two tests and the operands in common, which are a call each.
    #[tactic(auto, using(steps::proofs::Words::is_inner_refusal, steps::proofs::Words::is_inner_inner, crate::proofs::FlatNodes::no_inner))]
    fn compared_leaves(self, buffers: &mut Buffers, counts: Counts, sense: bool) -> Stepped<Counts>
        requires { word_at self 0 ≡ binary_kind }
        ensures step { (rs : RegisterSet) (n : ℕ) → is_inner result.answer ≡ false →
            settled (jump_node (arena_tree self.entry.arena.now) (lower_expression free_temp (arena_tree self.entry.arena.now)) sense (lower_expression free_temp (arena_tree self.entry.arena.now) self.entry.index) (tree_node self.entry) (made_of buffers.old (state_of rs counts n)))
            ≡ seen (arena_tree self.entry.arena.now) place_at (made_of buffers.new (state_of rs result.after n)) result.answer }
        ensures inner { is_inner result.answer ≡ true →
            (result ≡ record { after = counts; answer = word_end + self.entry.index }) × Untouched buffers.old buffers.new }
        ensures kept { Kept buffers.old buffers.new }
    {
        let operator = BinaryOp::of(self.word(1));
        if !is_comparison(operator) {
            return left_to_walk(counts, self.index);
        }
        if !self.has_leaves() {
            return left_to_walk(counts, self.index);
        }
        match self.leaf_operands() {
            Ok((src1, src2)) => self.fused_jump(buffers, counts, sense, src1, src2),
            Err(leaf) => refused(counts, Refusal::Undeclared, leaf),
        }
    }

    // A name, or a comparison of leaves, on two counts.
    #[tactic(auto, using(steps::proofs::Words::is_inner_inner, crate::proofs::FlatNodes::no_inner))]
    fn flat_jump(self, buffers: &mut Buffers, counts: Counts, sense: bool) -> Stepped<Counts>
        ensures step { (rs : RegisterSet) (n : ℕ) → is_inner result.answer ≡ false →
            settled (jump_node (arena_tree self.entry.arena.now) (lower_expression free_temp (arena_tree self.entry.arena.now)) sense (lower_expression free_temp (arena_tree self.entry.arena.now) self.entry.index) (tree_node self.entry) (made_of buffers.old (state_of rs counts n)))
            ≡ seen (arena_tree self.entry.arena.now) place_at (made_of buffers.new (state_of rs result.after n)) result.answer }
        ensures inner { is_inner result.answer ≡ true →
            (result ≡ record { after = counts; answer = word_end + self.entry.index }) × Untouched buffers.old buffers.new }
        ensures kept { Kept buffers.old buffers.new }
    {
        let kind = self.kind();
        match kind {
            Kind::Identifier => self.name_tested(buffers, counts, sense),
            Kind::Binary => self.compared_leaves(buffers, counts, sense),
            _ => left_to_walk(counts, self.index),
        }
    }

    // A name, or a comparison of leaves, as a condition: the place of the jump that is taken where it gives `sense`. Any other node is left to the walk.
    pub(crate) fn peek_jump(
        self,
        buffers: &mut Buffers,
        state: State,
        sense: bool,
    ) -> Stepped<State>
        ensures step { is_inner result.answer ≡ false →
            settled (jump_node (arena_tree self.entry.arena.now) (lower_expression free_temp (arena_tree self.entry.arena.now)) sense (lower_expression free_temp (arena_tree self.entry.arena.now) self.entry.index) (tree_node self.entry) (made_of buffers.old state))
            ≡ seen (arena_tree self.entry.arena.now) place_at (made_of buffers.new result.after) result.answer }
        ensures inner { is_inner result.answer ≡ true → NothingDone buffers.old buffers.new state result }
        ensures kept { Kept buffers.old buffers.new }
    {
        let f = self.flat_jump(buffers, state.counts, sense);
        f.on(state)
    }

    // A key that is pooled: a literal, or the name itself as a string.
    #[tactic(auto, using(crate::proofs::Reading::node_other), unfolding(crate::specs::Kinds::key_operand, syntax::specs::Ast::node_at))]
    pub(crate) fn key_operand(self) -> Operand
        ensures { result ≡ key_operand (tree_node self.entry) }
    {
        if self.kind() == Kind::Identifier {
            return Operand::String(self.word(1));
        }
        self.literal()
    }

    // An entry of leaves, or a key alone, on two counts: "Literals left over are pooled last, key before value." Any other entry is left to the walk, and nothing
    // is done. What pools the fields and emits stands here and in `set_property`: inlined here, maps take a tenth to a sixth less time. `value` is a word, as the definition's
    // entry has it, and is read by `node_of`.
    #[tactic(auto, using(steps::proofs::Words::is_inner_refusal, steps::proofs::Words::is_inner_inner, steps::proofs::Words::is_inner_word))]
    pub(crate) fn flat_entry(
        self,
        buffers: &mut Buffers,
        counts: Counts,
        d: u32,
        value: u32,
    ) -> Stepped<Counts>
        requires { value ≢ absent → InArena self.arena.now.nodes.now value }
        ensures step { (rs : RegisterSet) (n : ℕ) → is_inner result.answer ≡ false →
            settled (lower_entry (arena_tree self.entry.arena.now) (lower_expression free_temp (arena_tree self.entry.arena.now)) (register_at d) self.entry.index value (name_of (tree_node self.entry)) (made_of buffers.old (state_of rs counts n)))
            ≡ seen (arena_tree self.entry.arena.now) place_at (made_of buffers.new (state_of rs result.after n)) result.answer }
        ensures inner { is_inner result.answer ≡ true →
            (result ≡ record { after = counts; answer = word_end + self.entry.index }) × (Untouched buffers.old buffers.new × (value ≢ absent)) }
        ensures kept { Kept buffers.old buffers.new }
    {
        let kind = self.kind();
        // A key alone is asked for first, as kaori does. In one `match` with the child, each later fact would have to be shown for both ways to it.
        if (kind != Kind::Identifier) & node_of(value).is_none() {
            return refused(counts, Refusal::Key, self.index);
        }
        let child = NodeRef {
            arena: self.arena,
            index: value_or_key(self.index, value),
        };
        if !kind.is_leaf() | !child.kind().is_leaf() {
            return left_to_walk(counts, self.index);
        }
        let Some(src) = child.leaf_operand() else {
            return refused(counts, Refusal::Undeclared, child.index);
        };
        let first_field = store(buffers.constants, counts, self.key_operand());
        if is_refusal(first_field.answer) {
            return first_field;
        }
        let first = value_of(first_field.answer);
        let pooled = first_field.after;
        let second_field = field_of(buffers.constants, pooled, src, child.literal());
        if is_refusal(second_field.answer) {
            return second_field;
        }
        let second = value_of(second_field.answer);
        let opcode = set_opcode(LITERAL, src);
        emit(
            buffers.code,
            second_field.after,
            opcode,
            reg_of(d),
            first,
            second,
        )
    }

    // The operator of a node on two operands, into d, where not both are literals. What they held is given back by the walk.
    pub(crate) fn binary_operation(
        self,
        buffers: &mut Buffers,
        counts: Counts,
        d: u32,
        src1: u32,
        src2: u32,
    ) -> Stepped<Counts>
        requires { word_at self 0 ≡ binary_kind }
        ensures step { (rs : RegisterSet) (n : ℕ) (E : ℕ → Option Register → Walk Operand) → eqb src1 literal_word && eqb src2 literal_word ≡ false →
            settled (binary_sources (λ x. ret tt) (arena_tree self.entry.arena.now) E (binary_op (word_at self.entry 1)) (word_at self.entry 2) (word_at self.entry 3) (register_at d)
            (source_at (literal (node_at (words self.entry.arena.now.nodes.now) (word_at self.entry 2))) src1) (source_at (literal (node_at (words self.entry.arena.now.nodes.now) (word_at self.entry 3))) src2) (made_of buffers.old (state_of rs counts n)))
            ≡ seen (arena_tree self.entry.arena.now) (λ w. Operand.Register (register_at w)) (made_of buffers.new (state_of rs result.after n)) result.answer }
        ensures word { DestOrRefusal d result.answer }
        ensures kept { Kept buffers.old buffers.new }
    {
        let operator = BinaryOp::of(self.word(1));
        let sources = self.sources(src1, src2);
        binary_sources(
            buffers.code,
            buffers.constants,
            counts,
            operator,
            sources,
            d,
        )
    }

    // The jump of a comparison on two operands, where not both are literals. It and `binary_operation` are each one call, on d or on the outcome: one function of both would take that
    // call as a closure.
    pub(crate) fn fused_jump(
        self,
        buffers: &mut Buffers,
        counts: Counts,
        sense: bool,
        src1: u32,
        src2: u32,
    ) -> Stepped<Counts>
        requires { word_at self 0 ≡ binary_kind }
        ensures step { (rs : RegisterSet) (n : ℕ) (E : ℕ → Option Register → Walk Operand) (own : Option Register → Walk Operand) (c : Comparison) →
            eqb src1 literal_word && eqb src2 literal_word ≡ false → comparison (binary_op (word_at self.entry 1)) ≡ Some c →
            settled (fused_sources (arena_tree self.entry.arena.now) E sense own c
            (source_at (literal (node_at (words self.entry.arena.now.nodes.now) (word_at self.entry 2))) src1) (source_at (literal (node_at (words self.entry.arena.now.nodes.now) (word_at self.entry 3))) src2) (made_of buffers.old (state_of rs counts n)))
            ≡ seen (arena_tree self.entry.arena.now) place_at (made_of buffers.new (state_of rs result.after n)) result.answer }
        ensures word { WordOrRefusal result.answer }
        ensures kept { Kept buffers.old buffers.new }
    {
        let operator = BinaryOp::of(self.word(1));
        let sources = self.sources(src1, src2);
        fused_sources(
            buffers.code,
            buffers.constants,
            counts,
            sense,
            operator,
            sources,
        )
    }
}

// The node whose value an entry gets: its value, or the name that is its key. `flat_entry` says why its test for a key alone is not here.
fn value_or_key(key: u32, value: u32) -> u32
    ensures { result ≡ cond (eqb value absent) key value }
{
    node_of(value).unwrap_or(key)
}

#[tactic(auto, unfolding(crate::specs::Kinds::set_opcode))]
pub(crate) fn set_opcode(src1: u32, src2: u32) -> Opcode
    ensures { result ≡ set_opcode src1 src2 }
{
    match (src1 == LITERAL, src2 == LITERAL) {
        (true, true) => Opcode::SetPropertyKK,
        (true, false) => Opcode::SetPropertyKR,
        (false, true) => Opcode::SetPropertyRK,
        (false, false) => Opcode::SetProperty,
    }
}
