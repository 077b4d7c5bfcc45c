// Constants (kaori's runtime/value.rs): the three words of each, and the numbers of a tree's words.
ghost use Rattle.std.specs.Prelude.{◌≡◌};
ghost use Rattle.std.specs.Float.{binary64};
ghost use Rattle.std.specs.Float.Ieee.{nan_bits};
ghost use Rattle.runtime.specs.Value.{parts_bits, number_of, constant_words};

use crate::operand::Operand;
use std::num::{f64_from_bits_with_nan, f64_to_bits_with_nan};
use words::WORD_END;

// The words of a constant record.
pub const CONSTANT_WORDS: usize = 3;

// Whether bits are a NaN's: without the sign, above those of an infinity. `f64_from_bits_with_nan(bits).is_nan()` was tried, and misses the goal of docs/PERFORMANCE.md:
// calls of 256 nodes may take 1.0 of kaori's time, and took 1.00 as it stands and 1.02 with it, in three runs.
pub fn is_nan(bits: u64) -> bool
    ensures { result ≡ nan_bits binary64 bits }
{
    0x7ff0_0000_0000_0000 < bits % 0x8000_0000_0000_0000
}

// The bits of a node's low and high word.
pub fn bits(low: u32, high: u32) -> u64
    ensures { result ≡ parts_bits low high }
{
    WORD_END * (high as u64) + (low as u64)
}

// The number of a node's low and high word.
#[tactic(auto, unfolding(crate::specs::Value::number_of))]
pub fn number(low: u32, high: u32) -> f64
    ensures { result ≡ number_of low high }
{
    f64_from_bits_with_nan(bits(low, high))
}

// The words of a constant: kind, low, high. A register is no constant, and gets those of nil. The kinds are bare: a constant's name would repeat the variant's beside it.
// An `impl From` for the array would be no plainer: a caller would have to write the array's type.
#[tactic(auto, unfolding(crate::specs::Value::constant_words))]
pub fn constant_words(constant: Operand) -> [u32; CONSTANT_WORDS]
    ensures { result ≡ constant_words constant }
{
    match constant {
        Operand::Nil => [0, 0, 0],
        Operand::Boolean(value) => [1, value as u32, 0],
        Operand::Number(value) => {
            let bits = f64_to_bits_with_nan(value);
            [2, (bits % WORD_END) as u32, (bits / WORD_END) as u32]
        }
        Operand::String(symbol) => [3, symbol, 0],
        Operand::Register(_) => [0, 0, 0],
    }
}
