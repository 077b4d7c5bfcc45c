// What is printed: lines of words, and the listing of what lowering leaves.
ghost use Rattle.std.specs.Prelude.{◌≡◌, ◌*◌, drop};
ghost use Rattle.std.proofs.lemmas.List.Edits.{sets};
ghost use Rattle.words.specs.Words.{words};
ghost use Rattle.lowering.specs.Result.{numbers_of};
ghost use Rattle.result.specs.Numbers.{numbers};
ghost use Rattle.listing.specs.Output.{write_line, write_lines, printed, Leaves};

use crate::column::{COLUMN_BYTES, put, write_column};
use crate::text::LINE_FEED;
use lowering::RESULT_WORDS;
use result::{Result, numbers_of};
use runtime::instruction::INSTRUCTION_WORDS;
use runtime::value::CONSTANT_WORDS;
use words::{WORD_BYTES, put_words, word};

// The bytes of the lines of a result, of an instruction and of a constant.
pub const RESULT_LINE: usize = COLUMN_BYTES * RESULT_WORDS + 1;

pub const INSTRUCTION_LINE: usize = COLUMN_BYTES * INSTRUCTION_WORDS + 1;

pub const CONSTANT_LINE: usize = COLUMN_BYTES * CONSTANT_WORDS + 1;

// Writes record `place` of `width` words as a line that begins at `at`; bytes past the end are left out. The width is a byte, so that the sums fit: with a
// const parameter of type `usize` the proof stops at `COLUMN_BYTES * WIDTH`, and the public `write_lines` may have no `requires`.
#[tactic(auto, using(words::proofs::Records::sets_out, crate::proofs::Written::write_line_start, crate::proofs::Written::write_line_more, crate::proofs::Written::write_line_end))]
fn write_line(out: &mut [u8], at: usize, width: u8, s: &[u8], place: u32)
    ensures { out.new ≡ sets out.old at (write_line width (drop (width * place) (words s.now))) }
{
    if at <= out.len() {
        let first = (width as usize) * (place as usize);
        for k in 0..width as usize {
            write_column(out, at + COLUMN_BYTES * k, word(s, first + k));
        }
        put(out, at + COLUMN_BYTES * (width as usize), LINE_FEED);
    }
}

// Writes the first `count` records of `width` words, each as a line; the first begins at `at`.
#[tactic(auto, using(words::proofs::Records::sets_out, crate::proofs::Written::write_lines_start, crate::proofs::Written::write_lines_more, crate::proofs::Written::write_lines_end))]
pub fn write_lines(out: &mut [u8], at: usize, width: u8, count: u32, s: &[u8])
    ensures { out.new ≡ sets out.old at (write_lines width count (words s.now)) }
{
    if at <= out.len() {
        let size = COLUMN_BYTES * (width as usize) + 1;
        for i in 0..count {
            write_line(out, at + size * (i as usize), width, s, i);
        }
    }
}

// Prints the eight numbers of a result, and as many instructions and constants as it says. The answer is how many bytes that is; those past the end of `out`
// are left out. The numbers go through bytes so that one function writes every line: one for words would be a second loop, with its own proof.
pub fn write_listing(out: &mut [u8], r: Result, code: &[u8], constants: &[u8]) -> usize
    ensures { Leaves (printed (numbers_of (numbers r)) (words code.now) (words constants.now)) out.old out.new result }
{
    let mut line = [0u8; WORD_BYTES * RESULT_WORDS];
    let instructions = r.instructions;
    let pooled = r.constants;
    put_words(&mut line, 0, &numbers_of(r));
    write_line(out, 0, RESULT_WORDS as u8, &line, 0);
    write_lines(
        out,
        RESULT_LINE,
        INSTRUCTION_WORDS as u8,
        instructions,
        code,
    );
    let at = RESULT_LINE + INSTRUCTION_LINE * (instructions as usize);
    write_lines(out, at, CONSTANT_WORDS as u8, pooled, constants);
    at + CONSTANT_LINE * (pooled as usize)
}
