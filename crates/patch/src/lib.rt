// The parts of the lowering (kaori's codegen/lower_ast.rs) that are not the walk itself: jumps and arguments, patched in the code, and marks.
#![tactic(auto)]

ghost use Rattle.std.specs.Prelude.{◌≡◌, List, ◌++◌, ℕ};
ghost use Rattle.words.specs.Words.{words, tail, bytes_of};
ghost use Rattle.words.specs.Records.{buffer};
ghost use Rattle.lowering.specs.declared.State.{State};
ghost use Rattle.lowering.specs.Walk.{made};
ghost use Rattle.lowering.specs.Steps.{put_offset, patch_argument, patch_marks};
ghost use Rattle.lowering.specs.Result.{can_patch, patch_jump};
ghost use Rattle.patch.specs.Arguments.{mark_argument, seen_done};
ghost use Rattle.patch.specs.Laws.{number_of};

use diagnostics::{Refusal, Refused};
use runtime::instruction::{INSTRUCTION_WORDS, has_destination, offset_word};
use runtime::opcode::Opcode;
use words::{Appended, MAX_COUNT, append, capacity, put_word, word};

// The highest register.
const MAX_REGISTER: u64 = 255;

// Sets the offset of the jump at `place`.
#[tactic(auto, using(lowering::proofs::Running::Decode::offset_small), unfolding(lowering::specs::Steps::put_offset))]
pub fn put_offset(code: &mut [u8], place: u32, offset: u32)
    ensures words { words code.new ≡ put_offset (words code.old) place offset }
    ensures tail { tail code.new ≡ tail code.old }
{
    let at = INSTRUCTION_WORDS * (place as usize);
    let kind = word(code, at);
    let field = offset_word(kind);
    put_word(code, at + field, offset);
}

// Whether instruction `index` is one of the first `count`, all in the buffer, and a jump. Its kind is a word of any buffer, and need be no opcode's number.
#[tactic(auto, unfolding(lowering::specs::Result::can_patch))]
fn can_patch(code: &[u8], count: u32, index: u32) -> bool
    ensures { result ≡ can_patch (words code.now) count index }
{
    let kind = word(code, INSTRUCTION_WORDS * (index as usize));
    index < count
        && (count as usize) <= capacity(code, INSTRUCTION_WORDS)
        && (Opcode::Jump as u32) <= kind
        && kind <= (Opcode::JumpIfNotEqualK as u32)
}

// Patching: a refusal is 19, and nothing changes. Of the bytes only those of the offset change.
#[tactic(auto, using(crate::proofs::Patches::bytes_are), unfolding(lowering::specs::Result::patch_jump))]
pub fn patch_jump(code: &mut [u8], count: u32, index: u32, offset: u32) -> Result<(), Refusal>
    ensures number { number_of result ≡ (patch_jump (words code.old) count index offset).number }
    ensures bytes { code.new ≡ bytes_of (patch_jump (words code.old) count index offset).code ++ tail code.old }
{
    if !can_patch(code, count, index) {
        return Err(Refusal::Jump);
    }
    put_offset(code, index, offset);
    Ok(())
}

// Marks the last of `instructions` instructions: its place is put after the first `count` marks. Refused also if there is no instruction.
#[tactic(auto, unfolding(crate::specs::Arguments::mark_argument))]
pub fn mark_argument(marks: &mut [u8], count: u32, instructions: u32) -> Appended
    ensures words { buffer (words marks.new) result ≡ mark_argument (words marks.old) count instructions }
    ensures tail { tail marks.new ≡ tail marks.old }
{
    if instructions == 0 {
        return Appended {
            count,
            place: Err(Refusal::Unmarked),
        };
    }
    let item = [instructions - 1];
    append(marks, count, MAX_COUNT, &item, Refusal::Marks)
}

// Adds the frame size to the destination of the instruction at `place`.
#[tactic(auto, using(crate::proofs::Patches::argument_none, crate::proofs::Patches::argument_done, crate::proofs::Patches::argument_over), unfolding(crate::specs::Arguments::seen_done))]
pub fn patch_argument(code: &mut [u8], place: u32, frame_size: u32) -> Result<(), Refused>
    ensures words { (constants marks : List ℕ) (s : State) → s.registers.frame_size ≡ frame_size
        → patch_argument place (made (words code.old) constants marks s) ≡ seen_done result (made (words code.new) constants marks s) }
    ensures tail { tail code.new ≡ tail code.old }
{
    let at = INSTRUCTION_WORDS * (place as usize);
    let kind = word(code, at);
    if !has_destination(kind) {
        return Err(Refused {
            refusal: Refusal::Destination,
            place,
        });
    }
    let dest = word(code, at + 1);
    let sum = (dest as u64) + (frame_size as u64);
    if MAX_REGISTER < sum {
        return Err(Refused {
            refusal: Refusal::Sum,
            place,
        });
    }
    put_word(code, at + 1, sum as u32);
    Ok(())
}

// The same for each of the first `count` marks, in order, up to the first that is refused.
#[tactic(auto, using(std::proofs::lemmas::Result::err_from_is_err_and, crate::proofs::Patches::marks_none, crate::proofs::Patches::marks_done, crate::proofs::Patches::marks_refused), unfolding(crate::specs::Arguments::seen_done))]
pub fn patch_arguments(
    code: &mut [u8],
    marks: &[u8],
    count: u32,
    frame_size: u32,
) -> Result<(), Refused>
    ensures words { (constants : List ℕ) (s : State) → s.registers.frame_size ≡ frame_size
        → patch_marks count 0 (made (words code.old) constants (words marks.now) s)
        ≡ seen_done result (made (words code.new) constants (words marks.now) s) }
    ensures tail { tail code.new ≡ tail code.old }
{
    for i in 0..count {
        let place = word(marks, i as usize);
        patch_argument(code, place, frame_size)?;
    }
    Ok(())
}
