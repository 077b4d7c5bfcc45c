// Operators (kaori's syntax/ops.rs), each with its place in the order, which is its word in a node.
ghost use Rattle.std.specs.Prelude.{◌≡◌};
ghost use Rattle.syntax.specs.Ops.{binary_op, unary_op};

#[derive(Clone, Copy)]
pub enum BinaryOp {
    Add,
    Subtract,
    Multiply,
    Divide,
    Modulo,
    Equal,
    NotEqual,
    Greater,
    GreaterEqual,
    Less,
    LessEqual,
}

#[derive(Clone, Copy)]
pub enum UnaryOp {
    Negate,
    Deref,
}

// The six operators that compare. An enum of their own, for the definition: its tables of fused jumps then have no arm for the other operators.
#[derive(Drop)]
pub enum Comparison {
    Equal,
    NotEqual,
    Greater,
    GreaterEqual,
    Less,
    LessEqual,
}

// A binary operator, or a word that is read as one: what takes an operator takes either, and any word.
pub trait AsBinaryOp {
    ghost use Rattle.syntax.specs.declared.ops.BinaryOp.{BinaryOp};

    ghost as_binary_op: { Self → BinaryOp };

    fn as_binary_op(self) -> BinaryOp
        ensures { result ≡ as_binary_op self };
}

impl AsBinaryOp for BinaryOp {
    ghost as_binary_op = { λ operator. operator };

    fn as_binary_op(self) -> Self {
        self
    }
}

impl AsBinaryOp for u32 {
    ghost as_binary_op = { λ word. binary_op word };

    fn as_binary_op(self) -> BinaryOp {
        BinaryOp::of(self)
    }
}

// A unary operator, or a word, likewise. A trait of its own: of one over the type of the operator, a word would have two methods of one name, told apart by the type that is asked for.
pub trait AsUnaryOp {
    ghost use Rattle.syntax.specs.declared.ops.UnaryOp.{UnaryOp};

    ghost as_unary_op: { Self → UnaryOp };

    fn as_unary_op(self) -> UnaryOp
        ensures { result ≡ as_unary_op self };
}

impl AsUnaryOp for UnaryOp {
    ghost as_unary_op = { λ operator. operator };

    fn as_unary_op(self) -> Self {
        self
    }
}

impl AsUnaryOp for u32 {
    ghost as_unary_op = { λ word. unary_op word };

    fn as_unary_op(self) -> UnaryOp {
        UnaryOp::of(self)
    }
}

impl BinaryOp {
    // The operator of a word; a word past the last operator reads as the last. No `TryFrom`, since no word is refused, and no `From`: beside `of`, which is public, it would be a second name.
    #[tactic(auto, using(crate::proofs::Tables::get_or_past), unfolding(crate::specs::Ops::binary_op))]
    pub fn of(word: u32) -> BinaryOp
        ensures { result ≡ binary_op word }
    {
        match word {
            0 => BinaryOp::Add,
            1 => BinaryOp::Subtract,
            2 => BinaryOp::Multiply,
            3 => BinaryOp::Divide,
            4 => BinaryOp::Modulo,
            5 => BinaryOp::Equal,
            6 => BinaryOp::NotEqual,
            7 => BinaryOp::Greater,
            8 => BinaryOp::GreaterEqual,
            9 => BinaryOp::Less,
            _ => BinaryOp::LessEqual,
        }
    }
}

impl UnaryOp {
    // The operator of a word, likewise, and likewise no impl.
    #[tactic(auto, using(crate::proofs::Tables::get_or_past), unfolding(crate::specs::Ops::unary_op))]
    pub fn of(word: u32) -> UnaryOp
        ensures { result ≡ unary_op word }
    {
        match word {
            0 => UnaryOp::Negate,
            _ => UnaryOp::Deref,
        }
    }
}
