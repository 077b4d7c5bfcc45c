// The refusals of document 01, by name (kaori's errors, panics and limits), each with its number.
#![tactic(auto)]

ghost use Rattle.std.specs.Prelude.{◌≡◌};
ghost use Rattle.diagnostics.specs.Refusal.{refusal_number};

#[derive(Clone, Copy)]
pub enum Refusal {
    Size = 1,
    Root = 2,
    Kind = 3,
    Unused = 4,
    Number = 5,
    List = 6,
    Order = 7,
    Parameters = 8,
    Undeclared = 9,
    Registers = 10,
    Else = 11,
    Key = 12,
    Code = 13,
    Constants = 14,
    Unmarked = 15,
    Marks = 16,
    Destination = 17,
    Sum = 18,
    Jump = 19,
}

// A refusal with the place that it names, 0 where it names none.
#[derive(Clone, Copy)]
pub struct Refused {
    pub refusal: Refusal,
    pub place: u32,
}

// The same with the span of that place. No `Refused` is in it: each place of the definitions that reads `error.refusal` would say `error.refused.refusal`.
#[derive(Drop)]
pub struct Error {
    pub refusal: Refusal,
    pub place: u32,
    pub start: u32,
    pub end: u32,
}

impl Refusal {
    pub fn number(self) -> u32
        ensures { result ≡ refusal_number self }
    {
        self as u32
    }
}
