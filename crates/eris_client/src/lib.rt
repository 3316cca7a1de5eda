//! A client: it submits transactions, counts what the shards answer, and concludes general ones. Its step is
//! the rules' step.
//!
//! # What its calls ask
//!
//! `new` asks for a client that the config has. `submit` asks for a transaction whose fields are in
//! the ranges of messages, and that fewer than 4,294,967,295 were submitted, since an id has a
//! number of 32 bits. `abort` is for another client's transaction, with an id and keys in range.
//! `receive` takes any bytes. All but `is_spent` ask that the client isn't spent.
#![tactic(auto)]

mod asking;
mod assembling;
mod client;
mod completing;
mod counting;
mod courses;
mod fault;
mod fitting;
mod hearing;
mod known;
mod shards;
mod state;
mod steps;

pub use client::Client;
pub use fault::RetryFault;
pub use known::knows_txn;
