// What the definition of lowering and the walk share: how many numbers come back, and the state that goes by value.
#![tactic(auto)]

use environment::RegisterSet;

// How many numbers come back.
pub const RESULT_WORDS: usize = 8;

// How many instructions and how many constants are made: what a step that takes no register may change.
#[derive(Clone, Copy)]
pub struct Counts {
    pub instructions: u32,
    pub constants: u32,
}

// The part of kaori's `Lower` that is not a lent slice: the registers, and how many records of each buffer are made. The counts stand here and not with their buffers:
// document 01 has the state go by value beside the lent slices.
#[derive(Clone, Copy)]
pub struct State {
    pub registers: RegisterSet,
    pub counts: Counts,
    pub marks: u32,
}
