// The kinds of nodes. The kind word of a node is its kind's place in this order.
ghost use Rattle.std.specs.Prelude.{◌≡◌, ◌&&◌, leb, ltb};
ghost use Rattle.syntax.specs.Kinds.{kind_of, kind_number};

#[derive(Clone, Copy, PartialEq, Eq, PartialOrd, Ord)]
pub enum Kind {
    Number,
    String,
    Boolean,
    Nil,
    Identifier,
    Binary,
    Unary,
    LogicalNot,
    LogicalAnd,
    LogicalOr,
    If,
    Block,
    FunctionCall,
    PropertyAccess,
    Map,
}

impl Kind {
    // The kind of a word, if there is one. No `TryFrom`: it would need an error type, which would say nothing.
    #[tactic(auto, using(crate::proofs::KindWords::kind_past), unfolding(crate::specs::Kinds::kind_of))]
    pub fn of(word: u32) -> Option<Kind>
        ensures { result ≡ kind_of word }
    {
        match word {
            0 => Some(Kind::Number),
            1 => Some(Kind::String),
            2 => Some(Kind::Boolean),
            3 => Some(Kind::Nil),
            4 => Some(Kind::Identifier),
            5 => Some(Kind::Binary),
            6 => Some(Kind::Unary),
            7 => Some(Kind::LogicalNot),
            8 => Some(Kind::LogicalAnd),
            9 => Some(Kind::LogicalOr),
            10 => Some(Kind::If),
            11 => Some(Kind::Block),
            12 => Some(Kind::FunctionCall),
            13 => Some(Kind::PropertyAccess),
            14 => Some(Kind::Map),
            _ => None,
        }
    }

    // Whether nodes of this kind are literals.
    pub fn is_literal(self) -> bool
        ensures { result ≡ ltb (kind_number self) 4 }
    {
        self < Kind::Identifier
    }

    // Whether they are literals or names.
    pub fn is_leaf(self) -> bool
        ensures { result ≡ leb (kind_number self) 4 }
    {
        self <= Kind::Identifier
    }

    // Whether they are leaves or operators: the kinds up to not.
    pub fn is_leaf_or_operator(self) -> bool
        ensures { result ≡ leb (kind_number self) 7 }
    {
        self <= Kind::LogicalNot
    }

    // Whether they jump: and, or, if.
    pub fn jumps(self) -> bool
        ensures { result ≡ leb 8 (kind_number self) && leb (kind_number self) 10 }
    {
        (Kind::LogicalAnd <= self) & (self <= Kind::If)
    }
}
