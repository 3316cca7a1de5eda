use eris_base::{Dup, NoMemory, ReplicaId, Row, ShardId, Stamp, View};
use eris_txn::{Answer, Body, Key, Op, Plan};
use std::alloc::Global;

/// How far a transaction is at a client.
#[derive(Debug, Drop)]
pub enum Course {
    /// An independent transaction of its own, whose operations are executed.
    Executing(Row<Op>),
    /// A general transaction of its own, in its first half.
    Reading(Plan),
    /// A general transaction of its own, in its second half, which is this body.
    Concluding(Plan, Body),
    /// Another client's transaction, of which it asks the abort, with these keys.
    Aborting(Row<Key>),
}

/// What a replica said of a transaction's packet in a view of its shard: the learner its answer, and any other
/// replica that it has the packet too.
#[derive(Debug, Drop)]
pub struct Vote {
    pub shard: ShardId,
    pub replica: ReplicaId,
    pub view: View,
    pub stamp: Stamp,
    pub answer: Option<Answer>,
}

/// A transaction at a client.
#[derive(Debug, Drop)]
pub struct Transaction {
    pub course: Course,
    /// The votes of its present half, in the order in which they came.
    pub votes: Row<Vote>,
    /// The answers of the shards that are counted in its present half, in the order in which they were.
    pub counted: Row<(ShardId, Answer)>,
    /// Whether its client was answered, or told.
    pub finished: bool,
}

impl Dup for Course {
    fn copy(&self, alloc: Global) -> Result<Course, NoMemory> {
        match self {
            Course::Executing(ops) => Ok(Course::Executing(ops.copy(alloc)?)),
            Course::Reading(plan) => Ok(Course::Reading(plan.copy(alloc)?)),
            Course::Concluding(plan, body) => Ok(Course::Concluding(
                plan.copy(alloc)?,
                body.copy(alloc)?,
            )),
            Course::Aborting(keys) => Ok(Course::Aborting(keys.copy(alloc)?)),
        }
    }
}

impl Dup for Vote {
    fn copy(&self, alloc: Global) -> Result<Vote, NoMemory> {
        Ok(Vote {
            shard: self.shard,
            replica: self.replica,
            view: self.view,
            stamp: self.stamp.copy(alloc)?,
            answer: self.answer.copy(alloc)?,
        })
    }
}

impl Dup for Transaction {
    fn copy(&self, alloc: Global) -> Result<Transaction, NoMemory> {
        Ok(Transaction {
            course: self.course.copy(alloc)?,
            votes: self.votes.copy(alloc)?,
            counted: self.counted.copy(alloc)?,
            finished: self.finished,
        })
    }
}
