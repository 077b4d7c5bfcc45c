// Little-endian words in byte slices, and records of words. Each function that writes says that the bytes past the last whole word stay (`tail`): buffers have any
// bytes, and a type for whole words would ask more of callers.
#![tactic(auto)]

ghost use Rattle.std.specs.Prelude.{◌≡◌, ◌+◌, ◌<◌, ◌≤◌, length, get_or, set, take, drop};
ghost use Rattle.std.proofs.lemmas.List.Edits.{sets};
ghost use Rattle.words.specs.Words.{words, tail};
ghost use Rattle.words.specs.Records.{capacity, same_words, first_position, last_position, append, buffer};

use diagnostics::Refusal;

// How many records a buffer holds after an append, and the place of the new one or why there is none.
#[derive(Clone, Copy)]
pub struct Appended {
    pub count: u32,
    pub place: Result<u32, Refusal>,
}

// The bytes of a word.
pub const WORD_BYTES: usize = 4;

// Words are below it.
pub const WORD_END: u64 = 1 << 32;

// The most records that a count of 32 bits can say.
pub const MAX_COUNT: u32 = u32::MAX;

// The word at i, which is one of the whole words.
#[tactic(auto, using(crate::proofs::Words::length_words, crate::proofs::Words::word_in))]
fn whole_word(s: &[u8], i: usize) -> u32
    requires { i < length (words s.now) }
    ensures { result ≡ get_or (words s.now) i 0 }
{
    let at = WORD_BYTES * i;
    u32::from_le_bytes([s[at], s[at + 1], s[at + 2], s[at + 3]])
}

// The word at i; 0 past the last whole word.
#[tactic(auto, using(crate::proofs::Words::length_words, crate::proofs::Words::word_out))]
pub fn word(s: &[u8], i: usize) -> u32
    ensures { result ≡ get_or (words s.now) i 0 }
{
    if i < s.len() / WORD_BYTES {
        whole_word(s, i)
    } else {
        0
    }
}

// Sets the word at i, which is one of the whole words, to x.
#[tactic(auto, using(crate::proofs::Words::length_words, crate::proofs::Words::words_in, crate::proofs::Words::tail_in))]
fn put_whole(s: &mut [u8], i: usize, x: u32)
    requires { i < length (words s.old) }
    ensures words { words s.new ≡ set (words s.old) i x }
    ensures tail { tail s.new ≡ tail s.old }
{
    let at = WORD_BYTES * i;
    s[at..at + WORD_BYTES].copy_from_slice(&x.to_le_bytes());
}

// Sets the word at i to x; past the last whole word nothing changes.
#[tactic(auto, using(crate::proofs::Words::length_words, crate::proofs::Words::put_out))]
pub fn put_word(s: &mut [u8], i: usize, x: u32)
    ensures words { words s.new ≡ set (words s.old) i x }
    ensures tail { tail s.new ≡ tail s.old }
{
    if i < s.len() / WORD_BYTES {
        put_whole(s, i, x);
    }
}

// Sets the words from `at` on, which are whole, to those of `xs`.
fn put_record(s: &mut [u8], at: usize, xs: &[u32])
    requires { at + length xs.now ≤ length (words s.old) }
    ensures words { words s.new ≡ sets (words s.old) at xs.now }
    ensures tail { tail s.new ≡ tail s.old }
{
    for (k, x) in xs.iter().enumerate() {
        put_whole(s, at + k, *x);
    }
}

// Sets the words from `at` on to those of `xs`; past the last whole word nothing changes.
pub fn put_words(s: &mut [u8], at: usize, xs: &[u32])
    ensures words { words s.new ≡ sets (words s.old) at xs.now }
    ensures tail { tail s.new ≡ tail s.old }
{
    let end = s.len() / WORD_BYTES;
    if at <= end {
        let fit = xs.len().min(end - at);
        put_record(s, at, &xs[..fit]);
    }
}

// The whole records of `width` words that a buffer holds.
#[tactic(auto, using(crate::proofs::Words::length_words), unfolding(crate::specs::Records::capacity))]
pub fn capacity(s: &[u8], width: usize) -> usize
    ensures { result ≡ capacity width (words s.now) }
{
    if width == 0 {
        0
    } else {
        s.len() / WORD_BYTES / width
    }
}

// Puts a record after the first `count` ones, if fewer than `limit` are made and the buffer has room for it; otherwise it is refused.
pub fn append(s: &mut [u8], count: u32, limit: u32, item: &[u32], refusal: Refusal) -> Appended
    ensures words { buffer (words s.new) result ≡ append (words s.old) count limit item.now refusal }
    ensures tail { tail s.new ≡ tail s.old }
{
    let width = item.len();
    let at = count as usize;
    if count < limit && at < capacity(s, width) {
        put_record(s, width * at, item);
        return Appended {
            count: count + 1,
            place: Ok(count),
        };
    }
    Appended {
        count,
        place: Err(refusal),
    }
}

// Whether the words from `at` on are those of `item`. Constants differ in their last word more often than in their first, which is their kind.
// Over `item.iter().enumerate().rev()` it was tried, and its invariant did not close: the loop then has an iterator over pairs, and no number k.
fn same_words(s: &[u8], at: usize, item: &[u32]) -> bool
    requires { at + length item.now ≤ length (words s.now) }
    ensures { result ≡ same_words (take (length item.now) (drop at (words s.now))) item.now }
{
    for k in (0..item.len()).rev() {
        if whole_word(s, at + k) != item[k] {
            return false;
        }
    }
    true
}

// The place of the first of the first `count` records that is `item`. No `find` here, and no `rfind` below: their closures would need contracts of their own, more lines than the loop.
pub fn position(s: &[u8], count: u32, item: &[u32]) -> Option<u32>
    ensures { result ≡ first_position (words s.now) item.now count }
{
    let width = item.len();
    let records = capacity(s, width);
    let end = records.min(count as usize) as u32;
    for p in 0..end {
        if same_words(s, width * (p as usize), item) {
            return Some(p);
        }
    }
    None
}

// The place of the last of the first `count` words that is x. Words past the last whole one are 0.
pub fn last_position(s: &[u8], count: u32, x: u32) -> Option<u32>
    ensures { result ≡ last_position (words s.now) count x }
{
    let words = s.len() / WORD_BYTES;
    let mut end = count as usize;
    if words < end {
        if x == 0 {
            return Some(count - 1);
        }
        end = words;
    }
    for i in (0..end).rev() {
        if whole_word(s, i) == x {
            return Some(i as u32);
        }
    }
    None
}
