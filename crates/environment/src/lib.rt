// Registers (kaori's codegen/environment.rs): the register set, the parameters' registers and the lookup of a name.
#![tactic(auto)]

ghost use Rattle.std.specs.Prelude.{◌≡◌, cond, ◌-◌, ◌/◌, ◌%◌, ◌^◌, min, ltb, eqb, Some, None};
ghost use Rattle.words.specs.Words.{words};
ghost use Rattle.environment.specs.Registers.{register_count, word_bits, all_free, smallest_free, taken, given_back, held};
ghost use Rattle.environment.specs.Environment.{allocated, freed, parameters, lookup};

use diagnostics::Refusal;
use words::last_position;

// How many registers there are.
pub const REGISTERS: u32 = 256;

// How many of them are in one word of a set.
const BITS: u32 = 64;

// A word of free registers: every bit is set.
const ALL_FREE: u64 = u64::MAX;

// A temporary is given back once its value has been read. A local, which is a parameter or the destination of an argument, never is.
#[derive(Clone, Copy)]
pub enum Register {
    Temp(u32),
    Local(u32),
}

// The 256 registers: a set bit is a free one, bit r % 64 of word r / 64. The frame size is one more than the highest register taken.
#[derive(Clone, Copy)]
pub struct RegisterSet {
    pub words: [u64; 4],
    pub frame_size: u32,
}

// The set afterwards, and the register, as a number or as a `Register`, or why there is none.
#[derive(Drop)]
pub struct Taken<T> {
    pub set: RegisterSet,
    pub register: Result<T, Refusal>,
}

// The bit of register r in word i of a set, or 0 where the register is in another word.
fn bit_in(i: u32, r: u32) -> u64
    ensures { result ≡ cond (eqb (r / word_bits) i) (2 ^ (r % word_bits)) 0 }
{
    if r / BITS == i { 1u64 << (r % BITS) } else { 0 }
}

// The word of the 64 registers from `first` on: those below `arity` are held, the others free.
fn held_below(arity: u32, first: u32) -> u64
    ensures { result ≡ 2 ^ word_bits - 2 ^ min word_bits (arity - first) }
{
    let held = arity.saturating_sub(first);
    ALL_FREE.checked_shl(held).unwrap_or(0)
}

// Nothing that the lowering calls indexes a set's words by a variable: that would keep the set in memory.
impl RegisterSet {
    // All 256 are free.
    #[tactic(auto, unfolding(crate::specs::Registers::all_free))]
    pub fn new() -> RegisterSet
        ensures { result ≡ all_free }
    {
        RegisterSet {
            words: [ALL_FREE; 4],
            frame_size: 0,
        }
    }

    // The smallest free register, if there is one.
    fn smallest_free(self) -> Option<u32>
        ensures { result ≡ cond (ltb (smallest_free self.words) register_count) (Some (smallest_free self.words)) None }
    {
        let words = self.words;
        let t0 = u64::trailing_zeros(words[0]);
        if t0 < BITS {
            return Some(t0);
        }
        let t1 = u64::trailing_zeros(words[1]);
        if t1 < BITS {
            return Some(BITS + t1);
        }
        let t2 = u64::trailing_zeros(words[2]);
        if t2 < BITS {
            return Some(2 * BITS + t2);
        }
        let t3 = u64::trailing_zeros(words[3]);
        if t3 < BITS {
            return Some(3 * BITS + t3);
        }
        None
    }

    // Takes the smallest free register: its bit is set, so giving it back clears the bit.
    pub fn take(self) -> Taken<u32>
        ensures { result ≡ taken self }
    {
        let Some(r) = self.smallest_free() else {
            return Taken {
                set: self,
                register: Err(Refusal::Registers),
            };
        };
        let flipped = self.give_back(r);
        Taken {
            set: RegisterSet {
                frame_size: self.frame_size.max(r + 1),
                ..flipped
            },
            register: Ok(r),
        }
    }

    // Gives register r back: its bit is turned over. A number past the last register changes nothing. The first word, which has nearly
    // every register of a rule, has a branch of its own.
    pub fn give_back(self, r: u32) -> RegisterSet
        ensures { result ≡ given_back self r }
    {
        let old = self.words;
        let words = if r < BITS {
            [old[0] ^ (1u64 << r), old[1], old[2], old[3]]
        } else {
            [
                old[0],
                old[1] ^ bit_in(1, r),
                old[2] ^ bit_in(2, r),
                old[3] ^ bit_in(3, r),
            ]
        };
        RegisterSet { words, ..self }
    }

    // Whether register r is held; a number past the last register is not.
    #[tactic(auto, using(crate::proofs::Free::and_free), unfolding(crate::specs::Registers::held))]
    pub fn held(self, r: u32) -> bool
        ensures { result ≡ held self r }
    {
        if r < REGISTERS {
            let i = (r / BITS) as usize;
            let words = self.words;
            let w = words[i];
            (w >> (r % BITS)) & 1 == 0
        } else {
            false
        }
    }

    // Takes the smallest free register as a local. `allocate_temp` differs in the constructor alone; one function of both would get it as a closure, with a `requires` and an `ensures` by cases: more lines.
    #[tactic(auto, unfolding(crate::specs::Environment::allocated, crate::specs::Environment::found))]
    pub fn allocate_local(self) -> Taken<Register>
        ensures { result ≡ allocated Register.Local self }
    {
        let Taken { set, register } = self.take();
        Taken {
            set,
            register: register.map(Register::Local),
        }
    }

    // Takes the smallest free register as a temporary.
    #[tactic(auto, unfolding(crate::specs::Environment::allocated, crate::specs::Environment::found))]
    pub fn allocate_temp(self) -> Taken<Register>
        ensures { result ≡ allocated Register.Temp self }
    {
        let Taken { set, register } = self.take();
        Taken {
            set,
            register: register.map(Register::Temp),
        }
    }

    // A temporary is given back; a local stays held.
    #[tactic(auto, unfolding(crate::specs::Environment::freed))]
    pub fn free_temp(self, register: Register) -> RegisterSet
        ensures { result ≡ freed self register }
    {
        match register {
            Register::Temp(r) => self.give_back(r),
            Register::Local(_) => self,
        }
    }

    // The set in which each of `arity` parameters was allocated as a local, one after the other: they hold the lowest registers.
    pub fn with_parameters(arity: u32) -> RegisterSet
        ensures { result ≡ parameters arity }
    {
        RegisterSet {
            words: [
                held_below(arity, 0),
                held_below(arity, BITS),
                held_below(arity, 2 * BITS),
                held_below(arity, 3 * BITS),
            ],
            frame_size: arity.min(REGISTERS),
        }
    }
}

// The register of the last of the first `arity` names that is `name`.
pub fn lookup(names: &[u8], arity: u32, name: u32) -> Result<Register, Refusal>
    ensures { result ≡ lookup (words names.now) arity name }
{
    last_position(names, arity, name)
        .map(Register::Local)
        .ok_or(Refusal::Undeclared)
}
