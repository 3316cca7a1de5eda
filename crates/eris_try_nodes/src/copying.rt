use eris_base::{Dup, Epoch, NoMemory, ReplicaId, Row, ShardId, Stamp, View};
use eris_rules::{Course, Transaction, Vote};
use eris_txn::Answer;
use std::alloc::Global;

/// What is shown of a copy of a finished transaction.
pub(crate) fn copied(alloc: Global) -> anyhow::Result<String> {
    let transaction = finished(alloc)?;
    let copy = transaction.copy(alloc)?;
    Ok(format!(in alloc; "{copy:?}")?)
}

/// A transaction whose abort was asked, with one vote and one counted answer.
fn finished(alloc: Global) -> Result<Transaction, NoMemory> {
    let mut votes = Row::new(alloc);
    votes.push(vote(alloc)?)?;
    let mut counted = Row::new(alloc);
    counted.push((ShardId(1), Answer::Committed))?;
    Ok(Transaction {
        course: Course::Aborting(Row::new(alloc)),
        votes,
        counted,
        finished: true,
    })
}

fn vote(alloc: Global) -> Result<Vote, NoMemory> {
    let mut places = Row::new(alloc);
    places.push((ShardId(1), 5))?;
    Ok(Vote {
        shard: ShardId(1),
        replica: ReplicaId(2),
        view: View(3),
        stamp: Stamp {
            epoch: Epoch(2),
            places,
        },
        answer: Some(Answer::Aborted),
    })
}
