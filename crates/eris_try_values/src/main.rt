//! Makes values by the words of a line, and prints what the calls on them tell. A KEY is
//! SHARD/NAME; a VALUE is a number, or `-` where there is none.
//!
//! - `config SHARDS F CLIENTS` prints the sizes of a config, or why it is none.
//! - `learner VIEW F` prints the learner of a view.
//! - `quorum F REPLICA REPLICA ..` prints whether the replicas are a quorum.
//! - `stamp` prints the places of a stamp of epoch 2, how many these are, and whether there is
//!   none.
//! - `place EPOCH SHARD NUMBER` prints the number of the shard in that stamp, and whether it has
//!   the place.
//! - `copy NAME` prints whether a copy of a value is the same, and `differ NAME` whether two values
//!   that differ are.
//! - `name TEXT` prints the bytes of a name, or `no name`.
//! - `keys KEY KEY` prints whether the first key is less, whether it is greater, and whether the
//!   two are the same.
//! - `op VALUE KEY OP` prints the value that the operation leaves where the key had this value,
//!   what it answers, and whether its key is this one. An OP is `get`, `put N`, `del`, `add N` or
//!   `cas N N`.
//! - `values STEP, STEP, ..` has values of keys, none at first. `put KEY N` and `remove KEY` change
//!   a value, and `value KEY` prints one; `apply KEY OP` prints the answer of an operation, and
//!   `all KEY OP ; KEY OP ..` those of several.
//! - `body COUNT` prints why so many operations are no body.
//! - `plan CLAUSES` prints how many keys, guards and settings a plan has, or why it is none. The
//!   CLAUSES are `lock KEY KEY ..`, `guard N KEY KEY ..`, `set KEY N`, `plus KEY N` and
//!   `minus KEY N`, with ` ; ` between each two.
//! - `locks CLAUSES` prints how a plan locks its keys, and on which shards.
//! - `writes VALUE VALUE ..: CLAUSES` prints what a plan writes where its keys have these values.
//! - `second VALUE VALUE ..: CLAUSES` prints the second half of a general transaction, and
//!   `outcome ANSWER ANSWER ..` what comes of the answers to it.
//!
//! Any other line is printed as it is.
#![tactic(auto)]

mod copies;
mod halves;
mod ids;
mod keys;
mod ops;
mod plans;

use copies::{copied, differing};
use halves::{outcome, second};
use ids::{config, learned, placed, quorum, stamp};
use keys::{compared, name};
use ops::{applied, body, values};
use plans::{locks, plan, writes};
use std::alloc::Global;

fn main(rt: HostRuntime) -> anyhow::Result<()> {
    for line in rt.lines(rt.alloc()) {
        let line = line?;
        let told = told_of(rt.alloc(), line.as_str())?;
        println!(rt; "{told}")?;
    }
    Ok(())
}

fn told_of(alloc: Global, line: &str) -> anyhow::Result<String> {
    let (word, words) = line.split_once(' ').unwrap_or((line, ""));
    match word {
        "config" => config(alloc, words),
        "learner" => learned(alloc, words),
        "quorum" => quorum(alloc, words),
        "stamp" => stamp(alloc),
        "place" => placed(alloc, words),
        "copy" => copied(alloc, words),
        "differ" => differing(alloc, words),
        _ => told_of_txns(alloc, line, word, words),
    }
}

fn told_of_txns(alloc: Global, line: &str, word: &str, words: &str) -> anyhow::Result<String> {
    match word {
        "name" => name(alloc, words),
        "keys" => compared(alloc, words),
        "op" => applied(alloc, words),
        "values" => values(alloc, words),
        "body" => body(alloc, words),
        "plan" => plan(alloc, words),
        "locks" => locks(alloc, words),
        "writes" => writes(alloc, words),
        "second" => second(alloc, words),
        "outcome" => outcome(alloc, words),
        _ => Ok(format!(in alloc; "{line}")?),
    }
}
