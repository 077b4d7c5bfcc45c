// Replays recorded answers: lists each text of data/answers.txt, and compares every byte with the answer recorded for it.
#![tactic(auto)]

ghost use Rattle.std.specs.Prelude.{◌≡◌, ℕ, ◌≤◌, length, Some};
ghost use Rattle.std.specs.Str.{bytes_eq};
ghost use Rattle.listing.specs.Output.{lowerlist};
ghost use Rattle.vectors.specs.Answers.{line_end, comments_end, number, case_at, outcome};

use input::read_full;
use listing::column::{COLUMN_BYTES, read_column};
use listing::text::LINE_FEED;
use lower_text::{list, listing_buffer};
use std::alloc::Alloc;
use std::fs::Files;
use std::io::Write;
use std::{fs, io};

// More bytes than the record has. A record that fills the buffer is cut, and its last cases do not agree.
const RECORD_BYTES: usize = 1572864;

// The columns of a case's first line that say how long its text and its answer are.
const TEXT_COLUMN: usize = 2;

const ANSWER_COLUMN: usize = 3;

// Where the text of a case begins, where its answer, and where the next case.
#[derive(Drop)]
struct Case {
    text: usize,
    answer: usize,
    next: usize,
}

// How many cases the record says that it has, how many agree, where the line of the first that differs begins, if one does, and where the last ends.
#[derive(Drop)]
struct Outcome {
    cases: u32,
    agreeing: u32,
    differing: Option<usize>,
    end: usize,
}

// Whether `answer` is the listing of `text`.
fn agrees(text: &[u8], answer: &[u8]) -> bool
    ensures { result ≡ bytes_eq (lowerlist text.now) answer.now }
{
    let mut out = listing_buffer();
    let printed = list(text, &mut out);
    &out[..printed] == answer
}

// The number in the column at `at`; 0 where there is none.
fn number(s: &[u8], at: usize) -> u32
    ensures { result ≡ number s.now at }
{
    read_column(s, at).number().unwrap_or(0)
}

// The end of the line at `at`: past its line feed, or the end of `s`.
fn line_end(s: &[u8], at: usize) -> usize
    requires { at ≤ length s.now }
    ensures end { result ≡ line_end s.now at }
    ensures within { result ≤ length s.now }
{
    match s[at..].iter().position(|b| *b == LINE_FEED) {
        Some(i) => at + i + 1,
        None => s.len(),
    }
}

// The end of the lines that begin with '#'. A `while`: the step is a line, and not one byte.
#[tactic(auto, using(crate::proofs::Laws::comments_out, crate::proofs::Laws::comments_none, crate::proofs::Laws::comments_more, crate::proofs::Laws::line_end_past))]
fn comments_end(s: &[u8]) -> usize
    ensures { result ≡ comments_end s.now }
{
    let mut at = 0;
    while at < s.len() && s[at] == b'#' {
        at = line_end(s, at);
    }
    at
}

// The case whose line begins at `at`.
#[tactic(auto, unfolding(crate::specs::Answers::case_at))]
fn case_at(answers: &[u8], at: usize) -> Case
    requires { at ≤ length answers.now }
    ensures { result ≡ case_at answers.now at }
{
    let text = line_end(answers, at);
    let answer = text + number(answers, at + COLUMN_BYTES * TEXT_COLUMN) as usize;
    let next = answer + number(answers, at + COLUMN_BYTES * ANSWER_COLUMN) as usize;
    Case { text, answer, next }
}

// Replays the cases of a record, up to the first that is not whole.
#[tactic(auto, using(crate::proofs::Laws::comments_within, crate::proofs::Laws::case_ordered))]
fn replay(answers: &[u8]) -> Outcome
    ensures outcome { result ≡ outcome answers.now }
    ensures within { (at : ℕ) → result.differing ≡ Some at → at ≤ length answers.now }
{
    let comments = comments_end(answers);
    let cases = number(answers, comments);
    let mut at = line_end(answers, comments);
    let mut differing = None;
    let mut agreeing: u32 = 0;
    for _ in 0..cases {
        let c = case_at(answers, at);
        if answers.len() < c.next {
            break;
        }
        if agrees(&answers[c.text..c.answer], &answers[c.answer..c.next]) {
            agreeing += 1;
        } else {
            differing = differing.or(Some(at));
        }
        at = c.next;
    }
    Outcome {
        cases,
        agreeing,
        differing,
        end: at,
    }
}

// Prints what a replay gave.
fn report<R: Print>(rt: &R, answers: &[u8], r: Outcome) -> io::Result<()>
    requires { (at : ℕ) → r.differing ≡ Some at → at ≤ length answers.now }
{
    println!(rt; "{} of {} answers agree", r.agreeing, r.cases)?;
    if let Some(at) = r.differing {
        let end = line_end(answers, at);
        io::writer(rt).write_all(&answers[at..end])?;
    }
    if r.end != answers.len() {
        println!(rt; "the record is cut, or goes on behind its last case")?;
    }
    Ok(())
}

// The record: what `answers.txt` has, or as much of it as the buffer holds.
fn record<R: Files + Alloc>(rt: &R) -> io::Result<Vec<u8, R::A>> {
    let mut bytes = vec![in rt.alloc(); 0u8; RECORD_BYTES]?;
    let size = read_full(&mut fs::open(rt, "answers.txt")?, &mut bytes)?;
    bytes.truncate(size);
    Ok(bytes)
}

fn main(rt: HostRuntime) -> io::Result<()> {
    let answers = record(&rt)?;
    let r = replay(&answers);
    report(&rt, &answers, r)
}
