// The questions before the walk, in order: all are answered yes, or the answer is the first no, with its place. Plain comparisons are joined by `&`, and
// `&&` stands where what follows costs more.
#![tactic(auto)]

ghost use Rattle.std.specs.Prelude.{◌≡◌, true, OnOk, leb, List, ℕ, ◌+◌, ◌*◌, ◌≤◌, ◌<◌, length, take, drop};
ghost use Rattle.diagnostics.specs.declared.Refusal.{Refusal};
ghost use Rattle.words.specs.Words.{words};
ghost use Rattle.words.specs.Records.{capacity};
ghost use Rattle.syntax.specs.Ast.{node_width};
ghost use Rattle.syntax.specs.Kinds.{kind_number};
ghost use Rattle.lowering.specs.Tree.{present, entry_nodes, children, tree_of};
ghost use Rattle.lowering.specs.Questions.{question1, question4, question5, question6, all_below, Verdict, ask, ask_node, ask_nodes, questions};
ghost use Rattle.questions.specs.Fields.{of_fields, fields_node};
ghost use Rattle.questions.specs.Verdict.{following, verdict};

use diagnostics::{Refusal, Refused};
use runtime::value::{bits, is_nan};
use syntax::ast::{NODE_BYTES, NODE_WORDS, node_of};
use syntax::kind::Kind;
use syntax::ops::{BinaryOp, UnaryOp};
use words::{WORD_BYTES, capacity, word};

const MAX_NODES: usize = 4096;

const MAX_LIST_WORDS: usize = 8192;

const MAX_PARAMETERS: usize = 256;

const MAX_ARGUMENTS: u32 = 255;

const LAST_MODE: u32 = 2;

const LAST_BINARY_OP: u32 = BinaryOp::LessEqual as u32;

const LAST_UNARY_OP: u32 = UnaryOp::Deref as u32;

// The high word of minus zero, whose low word is 0.
const MINUS_ZERO_HIGH: u32 = 0x8000_0000;

// One question: the answer no refuses.
fn ask(answer: bool, refusal: Refusal, place: u32) -> Result<(), Refused>
    ensures asked { (next : Verdict) → following result next ≡ ask answer refusal place next }
    ensures yes { OnOk result (answer ≡ true) }
{
    if answer {
        Ok(())
    } else {
        Err(Refused { refusal, place })
    }
}

// 1: whether there are whole nodes, list words and names, and not too few or too many.
#[tactic(auto, using(words::proofs::Words::length_words), unfolding(lowering::specs::Questions::question1, lowering::specs::Questions::whole))]
fn sizes_fit(nodes: &[u8], list: &[u8], names: &[u8]) -> bool
    ensures { result ≡ question1 nodes.now list.now names.now }
{
    let count = capacity(nodes, NODE_WORDS);
    (nodes.len() % NODE_BYTES == 0)
        & (1 <= count)
        & (count <= MAX_NODES)
        & (list.len() % WORD_BYTES == 0)
        & (list.len() / WORD_BYTES <= MAX_LIST_WORDS)
        & (names.len() % WORD_BYTES == 0)
}

// Whether a node that may be absent is lower than node i.
#[tactic(auto, using(crate::proofs::Below::below_present), unfolding(syntax::specs::Ast::node_of))]
fn absent_or_below(i: u32, child: u32) -> bool
    ensures { result ≡ all_below i (present child) }
{
    match node_of(child) {
        Some(c) => c < i,
        None => true,
    }
}

// Whether every argument of a call is lower than node i.
#[tactic(auto, using(crate::proofs::Below::arguments_start, crate::proofs::Below::arguments_more, crate::proofs::Below::arguments_not, crate::proofs::Below::arguments_end))]
fn arguments_below(list: &[u8], i: u32, first: u32, count: u32) -> bool
    requires { first + count ≤ length (words list.now) }
    ensures { result ≡ all_below i (take count (drop first (words list.now))) }
{
    for k in 0..count {
        if i <= word(list, (first as usize) + (k as usize)) {
            return false;
        }
    }
    true
}

// Whether every key of a map, and every value that is there, is lower than node i.
#[tactic(auto, using(crate::proofs::Below::entries_start, crate::proofs::Below::entries_more, crate::proofs::Below::entries_not_key, crate::proofs::Below::entries_not_value, crate::proofs::Below::entries_end))]
fn entries_below(list: &[u8], i: u32, first: u32, count: u32) -> bool
    requires { first + 2 * count ≤ length (words list.now) }
    ensures { result ≡ all_below i (entry_nodes (take (2 * count) (drop first (words list.now)))) }
{
    for k in 0..count {
        let at = (first as usize) + 2 * (k as usize);
        if i <= word(list, at) {
            return false;
        }
        if !absent_or_below(i, word(list, at + 1)) {
            return false;
        }
    }
    true
}

// What a node's record says: its kind, and the three words behind it.
#[derive(Clone, Copy)]
struct Fields {
    kind: Kind,
    a: u32,
    b: u32,
    c: u32,
}

// By reference: by value, bushy trees took 2 to 6 per cent more time (of 4,096 nodes, 21.1 to 22.0 ns a node for 20.8, which is up to kaori's time), maps 1 to 2. The compiler joins the matches on the kind: for each node, calls and maps too, it jumps once by the kind, and then compares what that kind asks.
impl Fields {
    // 4: whether boolean and operator words are in their ranges, unused words 0.
    #[tactic(auto, unfolding(lowering::specs::Questions::question4))]
    fn words_used(&self) -> bool
        ensures { result ≡ of_fields question4 self.now }
    {
        let Fields { kind, a, b, c } = *self;
        match kind {
            Kind::Number => c == 0,
            Kind::String => (b == 0) & (c == 0),
            Kind::Boolean => (a <= 1) & (b == 0) & (c == 0),
            Kind::Nil => (a == 0) & (b == 0) & (c == 0),
            Kind::Identifier => (b == 0) & (c == 0),
            Kind::Binary => a <= LAST_BINARY_OP,
            Kind::Unary => (a <= LAST_UNARY_OP) & (c == 0),
            Kind::LogicalNot => (b == 0) & (c == 0),
            Kind::LogicalAnd => c == 0,
            Kind::LogicalOr => c == 0,
            Kind::If => true,
            Kind::Block => (b == 0) & (c == 0),
            Kind::FunctionCall => true,
            Kind::PropertyAccess => c == 0,
            Kind::Map => c == 0,
        }
    }

    // 5: whether a number is neither NaN nor minus zero.
    #[tactic(auto, unfolding(lowering::specs::Questions::question5))]
    fn number_allowed(&self) -> bool
        ensures { result ≡ question5 (kind_number self.now.kind) self.now.a self.now.b }
    {
        if self.kind == Kind::Number {
            let (low, high) = (self.a, self.b);
            !is_nan(bits(low, high)) & !((low == 0) & (high == MINUS_ZERO_HIGH))
        } else {
            true
        }
    }

    // 6: whether a node's part of the list, which has `size` words, is inside it, arguments few enough. Sums and doubles pass 32 bits.
    #[tactic(auto, unfolding(lowering::specs::Questions::question6))]
    fn part_inside(&self, size: usize) -> bool
        ensures { result ≡ of_fields (question6 size) self.now }
    {
        let Fields { kind, a, b, c } = *self;
        match kind {
            Kind::FunctionCall => ((b as usize) + (c as usize) <= size) & (c <= MAX_ARGUMENTS),
            Kind::Map => (a as usize) + 2 * (b as usize) <= size,
            _ => true,
        }
    }

    // 7: whether every node that node i names is lower than itself.
    #[tactic(auto, using(crate::proofs::Below::below_one, crate::proofs::Below::below_two, crate::proofs::Below::below_two_more, crate::proofs::Tables::call_inside, crate::proofs::Tables::map_inside), unfolding(lowering::specs::Tree::children, lowering::specs::Questions::all_below))]
    fn children_below(&self, list: &[u8], i: u32) -> bool
        requires { of_fields (question6 (length (words list.now))) self.now ≡ true }
        ensures { result ≡ all_below i (children (words list.now) (fields_node self.now)) }
    {
        let Fields { kind, a, b, c } = *self;
        match kind {
            Kind::Number | Kind::String | Kind::Boolean | Kind::Nil | Kind::Identifier => true,
            Kind::Binary => (b < i) & (c < i),
            Kind::Unary => b < i,
            Kind::LogicalNot => a < i,
            Kind::LogicalAnd => (a < i) & (b < i),
            Kind::LogicalOr => (a < i) & (b < i),
            Kind::If => (a < i) & (b < i) & absent_or_below(i, c),
            Kind::Block => absent_or_below(i, a),
            Kind::FunctionCall => a < i && arguments_below(list, i, b, c),
            Kind::PropertyAccess => a < i,
            Kind::Map => entries_below(list, i, a, b),
        }
    }

    // Questions 4 to 7 of node i.
    #[tactic(auto, using(words::proofs::Words::length_words, std::proofs::lemmas::Result::err_from_is_err_and))]
    fn check(&self, list: &[u8], i: u32) -> Result<(), Refused>
        ensures { (next : Verdict) → following result next ≡ ask (of_fields question4 self.now) Refusal.Unused i
            (ask (question5 (kind_number self.now.kind) self.now.a self.now.b) Refusal.Number i
            (ask (of_fields (question6 (length (words list.now))) self.now) Refusal.List i
            (ask (all_below i (children (words list.now) (fields_node self.now))) Refusal.Order i
            next))) }
    {
        ask(self.words_used(), Refusal::Unused, i)?;
        ask(self.number_allowed(), Refusal::Number, i)?;
        let size = list.len() / WORD_BYTES;
        ask(self.part_inside(size), Refusal::List, i)?;
        ask(self.children_below(list, i), Refusal::Order, i)
    }
}

// Questions 3 to 7 of node i. Its words are read from its own bytes, a slice of known length: so the compiler leaves out the test in `word`.
#[tactic(auto, using(words::proofs::Words::length_words, crate::proofs::Part::asked_words, crate::proofs::Tables::kind_asked, crate::proofs::Tables::kind_none, syntax::proofs::KindWords::kind_number_of), unfolding(words::specs::Records::capacity))]
fn check_node(nodes: &[u8], list: &[u8], i: u32) -> Result<(), Refused>
    requires { i < capacity node_width (words nodes.now) }
    ensures { (names : List ℕ) (next : Verdict) → following result next ≡ ask_node (tree_of nodes.now list.now names) i next }
{
    let at = NODE_BYTES * (i as usize);
    let end = at + NODE_BYTES;
    let node = &nodes[at..end];
    let Some(kind) = Kind::of(word(node, 0)) else {
        return Err(Refused {
            refusal: Refusal::Kind,
            place: i,
        });
    };
    let fields = Fields {
        kind,
        a: word(node, 1),
        b: word(node, 2),
        c: word(node, 3),
    };
    fields.check(list, i)
}

// Questions 3 to 7 of each of `count` nodes, lowest first.
#[tactic(auto, using(crate::proofs::Asked::nodes_start, crate::proofs::Asked::nodes_next, crate::proofs::Asked::nodes_end))]
fn check_nodes(nodes: &[u8], list: &[u8], count: u32) -> Result<(), Refused>
    requires { count ≤ capacity node_width (words nodes.now) }
    ensures { (names : List ℕ) (next : Verdict) → following result next ≡ ask_nodes (tree_of nodes.now list.now names) count 0 next }
{
    for i in 0..count {
        check_node(nodes, list, i)?;
    }
    Ok(())
}

// All questions of a tree, a mode and a root.
#[tactic(auto, using(words::proofs::Words::length_words, lowering::proofs::Questions::Checked::question1_sizes, std::proofs::lemmas::Result::err_from_is_err_and), unfolding(lowering::specs::Questions::questions, lowering::specs::Questions::question2, lowering::specs::Questions::question8))]
pub fn check(nodes: &[u8], list: &[u8], names: &[u8], mode: u32, root: u32) -> Result<(), Refused>
    ensures { verdict result ≡ questions nodes.now list.now names.now mode root }
{
    ask(sizes_fit(nodes, list, names), Refusal::Size, 0)?;
    let count = capacity(nodes, NODE_WORDS) as u32;
    ask((mode <= LAST_MODE) & (root < count), Refusal::Root, 0)?;
    check_nodes(nodes, list, count)?;
    let parameters = names.len() / WORD_BYTES;
    ask(parameters <= MAX_PARAMETERS, Refusal::Parameters, 0)
}
