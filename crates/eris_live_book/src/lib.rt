//! The book of a live run, which its ten nodes take in turn: what each of them did, the frames of
//! what was sent, and which packets were fetched.
//!
//! # What its calls ask
//!
//! `fetch` and `add` ask what every book's do: that the book is legal, `add` also that the entry is
//! a step of its node, and moreover that the fields of the messages it sends are in their ranges,
//! since they are kept as frames. `event` asks for the number of an entry that stands in the book.
#![tactic(auto)]

mod book;
mod fetch;
mod number;
mod place;
mod post;

pub use book::LiveBook;
