// The program's text and its listing: from the bytes of a text to a tree, and from what lowering leaves to the bytes of the listing.
#![tactic(auto)]

pub mod column;
pub mod output;
pub mod text;
