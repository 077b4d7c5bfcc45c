// From a text to its listing: the text is read into buffers, its tree is lowered, and what lowering leaves is printed.
#![tactic(auto)]

ghost use Rattle.std.specs.Prelude.{◌≡◌, ◌+◌, ◌≤◌, length, take, replicate, None};
ghost use Rattle.listing.specs.Text.{longest_text};
ghost use Rattle.listing.specs.Output.{longest_listing, print_tree, lowerlist, Leaves};
ghost use Rattle.lower_text.specs.Prints.{nodes_bytes, list_bytes, names_bytes, tree_listing};

use codegen::lower;
use diagnostics::{Refusal, Refused};
use listing::output::{CONSTANT_LINE, INSTRUCTION_LINE, RESULT_LINE, write_listing};
use listing::text::{
    HEADER_LINE, Header, MAX_LIST_WORDS, MAX_NODES, MAX_PARAMETERS, NODE_LINE, WORD_LINE, read_text,
};
use result::refused_result;
use runtime::instruction::INSTRUCTION_WORDS;
use runtime::value::CONSTANT_WORDS;
use syntax::ast::NODE_BYTES;
use words::WORD_BYTES;

// The bounds of what the lowering of a text may make.
const MAX_INSTRUCTIONS: usize = 2048;

const MAX_CONSTANTS: usize = 512;

const MAX_MARKS: usize = 512;

// The buffers. They are arrays: document 01 bounds the program's texts and what their lowering may make, and nothing here allocates.
const NODES_BYTES: usize = NODE_BYTES * (MAX_NODES as usize);

const LIST_BYTES: usize = WORD_BYTES * (MAX_LIST_WORDS as usize);

const NAMES_BYTES: usize = WORD_BYTES * (MAX_PARAMETERS as usize);

const CODE_BYTES: usize = WORD_BYTES * INSTRUCTION_WORDS * MAX_INSTRUCTIONS;

const CONSTANTS_BYTES: usize = WORD_BYTES * CONSTANT_WORDS * MAX_CONSTANTS;

const MARKS_BYTES: usize = WORD_BYTES * MAX_MARKS;

// How many bytes the longest text within the bounds has, a buffer for a text, and the longest listing. The buffer has one byte more than that text, so that no
// text that is too long is cut to a good one.
const TEXT_BYTES: usize = HEADER_LINE
    + NODE_LINE * (MAX_NODES as usize)
    + WORD_LINE * (MAX_LIST_WORDS as usize)
    + WORD_LINE * (MAX_PARAMETERS as usize);

const TEXT_BUFFER: usize = TEXT_BYTES + 1;

const LISTING_BUFFER: usize = RESULT_LINE
    + INSTRUCTION_LINE * MAX_INSTRUCTIONS
    + CONSTANT_LINE * MAX_CONSTANTS;

// Zeros, for a text. A text that does not fit is cut, and the cut text has the same listing as the whole one: both are longer than any good text.
pub fn text_buffer() -> [u8; TEXT_BUFFER]
    ensures length { longest_text + 1 ≡ length result }
    ensures zeros { result ≡ replicate (longest_text + 1) 0 }
{
    [0; TEXT_BUFFER]
}

// Zeros, for a listing: there is room for every listing.
pub fn listing_buffer() -> [u8; LISTING_BUFFER]
    ensures length { longest_listing ≡ length result }
    ensures zeros { result ≡ replicate longest_listing 0 }
{
    [0; LISTING_BUFFER]
}

// Lowers a tree and prints what that leaves. The answer is how many bytes the listing has; those past the end of `out` are left out. The parameters are those of
// `lower`.
fn list_tree(nodes: &[u8], root: u32, mode: u32, list: &[u8], names: &[u8], out: &mut [u8]) -> usize
    ensures { Leaves (tree_listing nodes.now root mode list.now names.now) out.old out.new result }
{
    let mut code = [0u8; CODE_BYTES];
    let mut constants = [0u8; CONSTANTS_BYTES];
    let mut marks = [0u8; MARKS_BYTES];
    let r = lower(
        nodes,
        root,
        mode,
        list,
        names,
        &mut code,
        &mut constants,
        &mut marks,
    );
    write_listing(out, r, &code, &constants)
}

// The same for the tree that a header describes, at the start of each buffer.
fn list_good(h: Header, nodes: &[u8], list: &[u8], names: &[u8], out: &mut [u8]) -> usize
    requires nodes_within { nodes_bytes h ≤ length nodes.now }
    requires list_within { list_bytes h ≤ length list.now }
    requires names_within { names_bytes h ≤ length names.now }
    ensures { Leaves (tree_listing (take (nodes_bytes h) nodes.now) h.root h.mode (take (list_bytes h) list.now) (take (names_bytes h) names.now)) out.old out.new result }
{
    let nodes_end = NODE_BYTES * (h.nodes as usize);
    let list_end = WORD_BYTES * (h.list as usize);
    let names_end = WORD_BYTES * (h.names as usize);
    list_tree(
        &nodes[..nodes_end],
        h.root,
        h.mode,
        &list[..list_end],
        &names[..names_end],
        out,
    )
}

// Text laid out otherwise or past the bounds: number 1 and zeros.
#[tactic(auto, unfolding(words::specs::Words::words, listing::specs::Output::print_tree))]
fn list_bad(out: &mut [u8]) -> usize
    ensures { Leaves (print_tree None) out.old out.new result }
{
    let r = refused_result(Refused {
        refusal: Refusal::Size,
        place: 0,
    });
    write_listing(out, r, &[], &[])
}

// Prints the listing of a text, whatever its bytes are. The answer is how many bytes the listing has; those past the end of `out` are left out.
#[tactic(auto, using(crate::proofs::Laws::good_listing, crate::proofs::Laws::bad_listing))]
pub fn list(text: &[u8], out: &mut [u8]) -> usize
    ensures { Leaves (lowerlist text.now) out.old out.new result }
{
    let mut nodes = [0u8; NODES_BYTES];
    let mut list = [0u8; LIST_BYTES];
    let mut names = [0u8; NAMES_BYTES];
    match read_text(text, &mut nodes, &mut list, &mut names) {
        Some(h) => list_good(h, &nodes, &list, &names, out),
        None => list_bad(out),
    }
}
