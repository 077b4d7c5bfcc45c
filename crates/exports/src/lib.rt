// The functions that C calls, on numbers and byte slices. include/sewurogi.h declares them, with a pointer and a length for each slice.
#![tactic(auto)]

ghost use Rattle.std.specs.Prelude.{◌≡◌, ◌++◌};
ghost use Rattle.std.proofs.lemmas.List.Edits.{sets};
ghost use Rattle.words.specs.Words.{words, tail, bytes_of};
ghost use Rattle.lowering.specs.Result.{numbers_of, lower, patch_jump};

use codegen::lower;
use patch::patch_jump;
use result::numbers_of;
use words::put_words;

// `lower`, with the eight numbers in `res`, a word each: those for which it has no room are left out, and no byte past the eighth word changes.
#[unsafe(no_mangle)]
pub extern "C" fn sewurogi_lower(
    nodes: &[u8],
    root: u32,
    mode: u32,
    list: &[u8],
    names: &[u8],
    code: &mut [u8],
    constants: &mut [u8],
    marks: &mut [u8],
    res: &mut [u8],
)
    ensures res { words res.new ≡ sets (words res.old) 0 (numbers_of (lower nodes.now root mode list.now names.now (words code.old) (words constants.old) (words marks.old)).result) }
    ensures tail { tail res.new ≡ tail res.old }
    ensures code { code.new ≡ bytes_of (lower nodes.now root mode list.now names.now (words code.old) (words constants.old) (words marks.old)).code ++ tail code.old }
    ensures constants { constants.new ≡ bytes_of (lower nodes.now root mode list.now names.now (words code.old) (words constants.old) (words marks.old)).constants ++ tail constants.old }
    ensures marks { marks.new ≡ bytes_of (lower nodes.now root mode list.now names.now (words code.old) (words constants.old) (words marks.old)).marks ++ tail marks.old }
{
    let r = lower(nodes, root, mode, list, names, code, constants, marks);
    let numbers = numbers_of(r);
    put_words(res, 0, &numbers);
}

// `patch_jump`: 0, or 19.
#[unsafe(no_mangle)]
pub extern "C" fn sewurogi_patch_jump(code: &mut [u8], count: u32, index: u32, offset: u32) -> u32
    ensures number { result ≡ (patch_jump (words code.old) count index offset).number }
    ensures bytes { code.new ≡ bytes_of (patch_jump (words code.old) count index offset).code ++ tail code.old }
{
    match patch_jump(code, count, index, offset) {
        Ok(()) => 0,
        Err(refusal) => refusal.number(),
    }
}
