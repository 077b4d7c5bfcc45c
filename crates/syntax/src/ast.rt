// Nodes (kaori's syntax/ast.rs) as records of an arena. A child is the index of a node; a list of children is a part of the tree's list.
ghost use Rattle.std.specs.Prelude.{◌≡◌};
ghost use Rattle.words.specs.Words.{words};
ghost use Rattle.syntax.specs.Ast.{node_of, node_word};

use crate::ops::{BinaryOp, UnaryOp};
use words::{WORD_BYTES, word};

// The words of a node record, and its bytes.
pub const NODE_WORDS: usize = 6;

pub const NODE_BYTES: usize = WORD_BYTES * NODE_WORDS;

// What stands for an else, a tail or a map's value that is not there. A builder of trees writes it.
pub const ABSENT: u32 = u32::MAX;

// A node as the definition has it: its numbers are the record's words, as document 01 gives them. So an else or a tail that is not there is ABSENT and no `Option`; `node_of`
// reads it as one. No code makes a `Node`.
#[derive(Drop)]
pub enum Node {
    Number {
        low: u32,
        high: u32,
    },
    String(u32),
    Boolean(bool),
    Nil,
    Identifier(u32),
    Binary {
        operator: BinaryOp,
        left: u32,
        right: u32,
    },
    Unary {
        operator: UnaryOp,
        operand: u32,
    },
    LogicalNot(u32),
    LogicalAnd {
        left: u32,
        right: u32,
    },
    LogicalOr {
        left: u32,
        right: u32,
    },
    If {
        condition: u32,
        then_branch: u32,
        else_branch: u32,
    },
    Block {
        tail: u32,
    },
    FunctionCall {
        callee: u32,
        first: u32,
        count: u32,
    },
    PropertyAccess {
        object: u32,
        property: u32,
    },
    Map {
        first: u32,
        count: u32,
    },
}

// The node that a word names; none where it stands for one that is not there.
#[tactic(auto, unfolding(crate::specs::Ast::node_of))]
pub fn node_of(word: u32) -> Option<u32>
    ensures { result ≡ node_of word }
{
    (word != ABSENT).then_some(word)
}

// Word k of node i; 0 past the last whole word.
#[tactic(auto, unfolding(crate::specs::Ast::node_word))]
pub fn node_word(nodes: &[u8], i: u32, k: u32) -> u32
    ensures { result ≡ node_word (words nodes.now) i k }
{
    word(nodes, NODE_WORDS * (i as usize) + (k as usize))
}
