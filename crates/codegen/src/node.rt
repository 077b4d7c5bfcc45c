// What the walk reads of a node: its words, without a test, its kind, its literal, and the register of a name.
ghost use Rattle.std.specs.Prelude.{◌≡◌, ◌&&◌, false, ◌<◌, eqb, length};
ghost use Rattle.words.specs.Words.{words};
ghost use Rattle.environment.specs.Environment.{lookup};
ghost use Rattle.syntax.specs.Ast.{node_width, node_at};
ghost use Rattle.syntax.specs.Kinds.{kind_number};
ghost use Rattle.lowering.specs.Literals.{literal};
ghost use Rattle.steps.specs.Answers.{literal_word, source_at, first_source, second_source};
ghost use Rattle.codegen.specs.Walks.{word_at, tree_node};
ghost use Rattle.codegen.specs.Kinds.{binary_kind};
ghost use Rattle.codegen.specs.Flat.{found_at, LocalOr};

use crate::arena::NodeRef;
use environment::{Register, lookup};
use runtime::operand::Operand;
use runtime::value::number;
use steps::answer::{LITERAL, local};
use steps::sources::Sources;
use syntax::ast::NODE_BYTES;
use syntax::kind::Kind;
use words::{WORD_BYTES, word};

impl NodeRef<'_> {
    // Word k.
    pub(crate) fn word(self, k: usize) -> u32
        requires { k < node_width }
        ensures { result ≡ word_at self.entry k }
    {
        let at = NODE_BYTES * (self.index as usize);
        let end = at + NODE_BYTES;
        word(&self.arena.nodes[at..end], k)
    }

    // The kind.
    pub(crate) fn kind(self) -> Kind
        ensures { kind_number result ≡ word_at self.entry 0 }
    {
        match Kind::of(self.word(0)) {
            Some(kind) => kind,
            None => unreachable!(),
        }
    }

    // The operand of a literal; nil for any other node. A chain of tests: as a `match` on the kind, deep trees take a tenth more time.
    pub(crate) fn literal(self) -> Operand
        ensures { result ≡ literal (tree_node self.entry) }
    {
        let kind = self.kind();
        let a = self.word(1);
        let b = self.word(2);
        if kind == Kind::Number {
            return Operand::Number(number(a, b));
        }
        if kind == Kind::String {
            return Operand::String(a);
        }
        if kind == Kind::Boolean {
            return Operand::Boolean(a != 0);
        }
        Operand::Nil
    }

    // The sources of an operator, by the words that the walk has for its operands, of which one at most is a literal's.
    pub(crate) fn sources(self, src1: u32, src2: u32) -> Sources
        requires { word_at self 0 ≡ binary_kind }
        ensures first { first_source result ≡ source_at (literal (node_at (words self.entry.arena.now.nodes.now) (word_at self.entry 2))) src1 }
        ensures second { eqb src1 literal_word && eqb src2 literal_word ≡ false →
            second_source result ≡ source_at (literal (node_at (words self.entry.arena.now.nodes.now) (word_at self.entry 3))) src2 }
    {
        if src1 == LITERAL {
            let left = NodeRef {
                arena: self.arena,
                index: self.word(2),
            };
            return Sources::KR(left.literal(), src2);
        }
        if src2 == LITERAL {
            let right = NodeRef {
                arena: self.arena,
                index: self.word(3),
            };
            return Sources::RK(src1, right.literal());
        }
        Sources::RR(src1, src2)
    }

    // The register of a name, if it is declared. An Option: the refusal of a name that is not is made by the caller, which has the counts.
    #[tactic(auto, using(words::proofs::Words::length_words))]
    pub(crate) fn find(self) -> Option<u32>
        ensures found { found_at result ≡ lookup (words self.entry.arena.now.names.now) (length (words self.entry.arena.now.names.now)) (word_at self.entry 1) }
        ensures local { LocalOr result }
    {
        let names = self.arena.names;
        let arity = (names.len() / WORD_BYTES) as u32;
        match lookup(names, arity, self.word(1)) {
            Ok(Register::Local(r)) => Some(local(r)),
            Ok(Register::Temp(_)) => unreachable!(),
            Err(_) => None,
        }
    }
}
