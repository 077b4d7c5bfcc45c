// A text read, line by line, into the words of lent buffers.
ghost use Rattle.std.specs.Prelude.{◌≡◌, ◌*◌, ◌&&◌, get_or, drop};
ghost use Rattle.words.specs.Words.{words, tail};
ghost use Rattle.listing.specs.Text.{read_as, read_line, read_lines, fill, header_of, list_at, names_at, text_bytes, within};
ghost use Rattle.listing.specs.Text.{read_header, read_nodes, read_list, read_names, read_text, filled};

use crate::column::{COLUMN_BYTES, read_column};
use syntax::ast::NODE_WORDS;
use words::{WORD_BYTES, put_word, word};

// What the first line of a text says.
#[derive(Clone, Copy)]
pub struct Header {
    pub mode: u32,
    pub root: u32,
    pub nodes: u32,
    pub list: u32,
    pub names: u32,
}

pub const LINE_FEED: u8 = b'\n';

const HEADER_WORDS: usize = 5;

// The bounds of a text. Document 01 gives them apart from those that questions 1 and 8 ask: 4,096 nodes, 8,192 list words and 256 parameters.
pub const MAX_NODES: u32 = 512;

pub const MAX_LIST_WORDS: u32 = 512;

pub const MAX_PARAMETERS: u32 = 256;

// The bytes of a line of one column, and of the lines of a header and of a node. Each is written out, since a constant's value may call no function.
pub const WORD_LINE: usize = COLUMN_BYTES + 1;

pub const HEADER_LINE: usize = COLUMN_BYTES * HEADER_WORDS + 1;

pub const NODE_LINE: usize = COLUMN_BYTES * NODE_WORDS + 1;

impl Header {
    // The header of a line's words.
    #[tactic(auto, unfolding(crate::specs::Text::header_of))]
    fn of_line(line: &[u8]) -> Header
        ensures { result ≡ header_of (words line.now) }
    {
        Header {
            mode: word(line, 0),
            root: word(line, 1),
            nodes: word(line, 2),
            list: word(line, 3),
            names: word(line, 4),
        }
    }

    // Where the list words begin.
    fn list_at(self) -> usize
        ensures { result ≡ list_at self }
    {
        HEADER_LINE + NODE_LINE * (self.nodes as usize)
    }

    // Where the parameters begin.
    fn names_at(self) -> usize
        ensures { result ≡ names_at self }
    {
        self.list_at() + WORD_LINE * (self.list as usize)
    }

    // Where the text ends.
    fn text_bytes(self) -> usize
        ensures { result ≡ text_bytes self }
    {
        self.names_at() + WORD_LINE * (self.names as usize)
    }

    // Whether the counts are in their bounds.
    fn within(self) -> bool
        ensures { result ≡ within self }
    {
        (self.nodes <= MAX_NODES) & (self.list <= MAX_LIST_WORDS) & (self.names <= MAX_PARAMETERS)
    }
}

// The byte at i; 0 past the end.
fn byte(s: &[u8], i: usize) -> u8
    ensures { result ≡ get_or s.now i 0 }
{
    s.get(i).copied().unwrap_or(0)
}

// Reads the line of `width` columns at `at` into record `place`, up to the first column that is none. The answer is whether it is such a line. The
// width is a byte, as in `write_line` of output, and for its reason.
#[tactic(auto, using(crate::proofs::Lines::line_out, crate::proofs::Lines::line_start, crate::proofs::Lines::line_more, crate::proofs::Lines::line_fault, crate::proofs::Lines::line_end_lem))]
fn read_line(s: &[u8], at: usize, width: u8, out: &mut [u8], place: u32) -> bool
    ensures words { read_as (words out.new) result ≡ fill (words out.old) (width * place) (read_line width (drop at s.now)) }
    ensures tail { tail out.new ≡ tail out.old }
{
    if s.len() < at {
        return false;
    }
    let first = (width as usize) * (place as usize);
    for k in 0..width as usize {
        let Some(x) = read_column(s, at + COLUMN_BYTES * k).number() else {
            return false;
        };
        put_word(out, first + k, x);
    }
    byte(s, at + COLUMN_BYTES * (width as usize)) == LINE_FEED
}

// Reads the `count` lines of `width` columns that begin at `at`, up to the first fault. The answer is whether they are such lines.
#[tactic(auto, using(crate::proofs::Lines::lines_out, crate::proofs::Lines::lines_start, crate::proofs::Lines::lines_more, crate::proofs::Lines::lines_fault, crate::proofs::Lines::lines_end))]
pub fn read_lines(s: &[u8], at: usize, width: u8, count: u32, out: &mut [u8]) -> bool
    ensures words { read_as (words out.new) result ≡ fill (words out.old) 0 (read_lines width count (drop at s.now)) }
    ensures tail { tail out.new ≡ tail out.old }
{
    if s.len() < at {
        return count == 0;
    }
    let size = COLUMN_BYTES * (width as usize) + 1;
    for i in 0..count {
        if !read_line(s, at + size * (i as usize), width, out, i) {
            return false;
        }
    }
    true
}

// The header of a text that is in its bounds and as long as the header says.
#[tactic(auto, using(crate::proofs::Texts::header_read, words::proofs::Words::length_words))]
fn read_header(s: &[u8]) -> Option<Header>
    ensures { result ≡ read_header s.now }
{
    let mut line = [0u8; WORD_BYTES * HEADER_WORDS];
    let good = read_line(s, 0, HEADER_WORDS as u8, &mut line, 0);
    let h = Header::of_line(&line);
    (good & h.within() & (s.len() == h.text_bytes())).then_some(h)
}

// Reads the nodes, the list words and the parameters that a header describes, each up to its first fault. The answer is whether there is none.
fn read_tables(s: &[u8], h: Header, nodes: &mut [u8], list: &mut [u8], names: &mut [u8]) -> bool
    ensures good { result ≡ ((read_nodes h s.now).good && (read_list h s.now).good && (read_names h s.now).good) }
    ensures nodes { nodes.new ≡ filled read_nodes (Some h) s.now nodes.old }
    ensures list { list.new ≡ filled read_list (Some h) s.now list.old }
    ensures names { names.new ≡ filled read_names (Some h) s.now names.old }
{
    let a = read_lines(s, HEADER_LINE, NODE_WORDS as u8, h.nodes, nodes);
    let b = read_lines(s, h.list_at(), 1, h.list, list);
    let c = read_lines(s, h.names_at(), 1, h.names, names);
    a & b & c
}

// Reads a text: its header, and its tree into the words of three buffers. Of a bad text each buffer keeps the words up to the first fault of its part.
// They are three slices, as `lower` takes them.
#[tactic(auto, unfolding(crate::specs::Text::read_text, crate::specs::Text::checked_head, crate::specs::Text::filled))]
pub fn read_text(s: &[u8], nodes: &mut [u8], list: &mut [u8], names: &mut [u8]) -> Option<Header>
    ensures head { result ≡ read_text s.now }
    ensures nodes { nodes.new ≡ filled read_nodes (read_header s.now) s.now nodes.old }
    ensures list { list.new ≡ filled read_list (read_header s.now) s.now list.old }
    ensures names { names.new ≡ filled read_names (read_header s.now) s.now names.old }
{
    let h = read_header(s)?;
    read_tables(s, h, nodes, list, names).then_some(h)
}
