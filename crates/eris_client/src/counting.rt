//! When a shard is counted: by the learner's answer and f+1 replicas in one view and for one stamp, or by a late
//! answer.
ghost use Rattle.std.specs.Prelude.{◌≡◌, filter, map, IfOk, OnOk};
ghost use Rattle.std.specs.List.{list_all};
ghost use Rattle.std.specs.Option.{option_copied};
ghost use Rattle.eris_epoch.specs.SamePackets.{same_stamp};
ghost use Rattle.eris_rules.specs.ClientStates.{body_of};
ghost use Rattle.eris_rules.specs.Clients.{item_shards};
ghost use Rattle.eris_rules.specs.Votes.{agrees_with, answer_by_votes, first_answer, is_complete, is_counted, votes_with, with_counted, with_late, with_vote};

use eris_base::{Dup, NoMemory, ReplicaId, Row, Same, ShardId, Stamp, is_quorum};
use eris_rules::{Transaction, Vote};
use eris_txn::Answer;
use std::alloc::Global;

/// Notes a vote, which may make its shard counted.
#[tactic(auto, unfolding(eris_rules::specs::Votes::with_vote))]
pub fn add_vote(
    alloc: Global,
    f: u8,
    transaction: &mut Transaction,
    vote: Vote,
) -> Result<(), NoMemory>
    ensures { OnOk result (transaction.new ≡ with_vote f transaction.old vote) }
{
    transaction.votes.push(vote.copy(alloc)?)?;
    let answer = answer_by_votes(alloc, f, transaction.votes.as_slice(), &vote)?;
    match answer {
        Some(answer) => count_shard(&mut transaction.counted, vote.shard, answer),
        None => Ok(()),
    }
}

/// Notes a late answer, which counts its shard.
#[tactic(auto, unfolding(eris_rules::specs::Votes::with_late))]
pub fn add_late(
    transaction: &mut Transaction,
    shard: ShardId,
    answer: Answer,
) -> Result<(), NoMemory>
    ensures { OnOk result (transaction.new ≡ with_late transaction.old shard answer) }
{
    count_shard(&mut transaction.counted, shard, answer)
}

/// Counts a shard, unless it is counted.
#[tactic(auto, unfolding(eris_rules::specs::Votes::with_counted))]
fn count_shard(
    counted: &mut Row<(ShardId, Answer)>,
    shard: ShardId,
    answer: Answer,
) -> Result<(), NoMemory>
    ensures { OnOk result (counted.new ≡ with_counted counted.old shard answer) }
{
    if is_counted(counted.as_slice(), shard) {
        return Ok(());
    }
    counted.push((shard, answer))
}

fn is_counted(counted: &[(ShardId, Answer)], shard: ShardId) -> bool
    ensures { result ≡ is_counted counted.now shard }
{
    counted.iter().any(|pair| pair.0 == shard)
}

/// The answer that the votes of this one's shard, view and stamp make, where f+1 replicas gave them.
#[tactic(auto, unfolding(eris_rules::specs::Votes::answer_by_votes))]
fn answer_by_votes(
    alloc: Global,
    f: u8,
    votes: &[Vote],
    vote: &Vote,
) -> Result<Option<Answer>, NoMemory>
    ensures { IfOk result (λ answer. answer ≡ answer_by_votes f (votes_with votes.now vote.now)) }
{
    let replicas = replicas_with(alloc, votes, vote)?;
    if !is_quorum(replicas.as_slice(), f) {
        return Ok(None);
    }
    match first_answer(votes, vote) {
        Some(answer) => Ok(Some(answer.copy(alloc)?)),
        None => Ok(None),
    }
}

/// The replicas of the votes that agree with this one.
fn replicas_with(alloc: Global, votes: &[Vote], vote: &Vote) -> Result<Row<ReplicaId>, NoMemory>
    ensures { IfOk result (λ replicas. replicas ≡ map (λ one. one.replica) (votes_with votes.now vote.now)) }
{
    let mut replicas = Row::new(alloc);
    for other in votes {
        if agrees_with(vote, other) {
            replicas.push(other.replica)?;
        }
    }
    Ok(replicas)
}

/// The first answer among the votes that agree with this one.
fn first_answer<'a>(votes: &'a [Vote], vote: &Vote) -> Option<&'a Answer>
    ensures { option_copied result ≡ first_answer (votes_with votes.now vote.now) }
{
    let mut rest = votes;
    while let [other, more @ ..] = rest {
        if agrees_with(vote, other) {
            if let Some(answer) = &other.answer {
                return Some(answer);
            }
        }
        rest = more;
    }
    None
}

/// Whether the other vote is of this one's shard, view and stamp.
#[tactic(auto, unfolding(eris_rules::specs::Votes::agrees_with))]
fn agrees_with(vote: &Vote, other: &Vote) -> bool
    ensures { result ≡ agrees_with vote.now other.now }
{
    other.shard == vote.shard && other.view == vote.view && is_same_stamp(&other.stamp, &vote.stamp)
}

#[tactic(auto, using(eris_epoch::proofs::SameLaws::same_stamps))]
fn is_same_stamp(some: &Stamp, other: &Stamp) -> bool
    ensures { result ≡ same_stamp some.now other.now }
{
    some.same(other)
}

/// Whether every participant is counted. It needs the shards of the body's items.
pub fn is_complete(transaction: &Transaction, shards: &[ShardId]) -> bool
    requires { shards.now ≡ item_shards (body_of transaction.now.course) }
    ensures { result ≡ is_complete transaction.now }
{
    are_counted(transaction.counted.as_slice(), shards)
}

fn are_counted(counted: &[(ShardId, Answer)], shards: &[ShardId]) -> bool
    ensures { result ≡ list_all (λ shard. is_counted counted.now shard) shards.now }
{
    shards.iter().all(|shard| is_counted(counted, *shard))
}
