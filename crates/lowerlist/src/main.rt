// `lowerlist`: prints the listing of the text on standard input.
#![tactic(auto)]

ghost use Rattle.std.specs.Prelude.{◌≡◌, List, ℕ, ◌≤◌, ◌<◌, length, take};
ghost use Rattle.listing.specs.Text.{longest_text};
ghost use Rattle.listing.specs.Output.{longest_listing, lowerlist};

use input::read_full;
use lower_text::{list, listing_buffer, text_buffer};
use std::io;
use std::io::Write;

// Lists an input of which the first `size` bytes of `text` were read: the whole input, or as much of it as `text` holds. What is printed is the listing of the
// whole input in both cases: an input longer than the longest good text is bad, whatever follows. The buffer and the size, and not the slice that was read: by the
// buffer's length `main` has to show that it has more room than the longest good text.
fn list_input(text: &[u8], size: usize, out: &mut [u8]) -> usize
    requires text_room { longest_text < length text.now }
    requires size_within { size ≤ length text.now }
    requires listing_room { longest_listing ≡ length out.old }
    ensures fits { result ≤ longest_listing }
    ensures bytes { (input : List ℕ) → take size text.now ≡ take (length text.now) input → take result out.new ≡ lowerlist input }
{
    list(&text[..size], out)
}

fn main(rt: HostRuntime) -> io::Result<()> {
    let mut text = text_buffer();
    let mut out = listing_buffer();
    let size = read_full(&mut rt.stdin(), &mut text)?;
    let printed = list_input(&text, size, &mut out);
    rt.stdout().write_all(&out[..printed])
}
