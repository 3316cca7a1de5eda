//! Whether a vote or an answer is one that a transaction's present half can have got.
ghost use Rattle.std.specs.Prelude.{◌≡◌, ◌≤◌};
ghost use Rattle.eris_rules.specs.ClientStates.{body_of};
ghost use Rattle.eris_rules.specs.Clients.{item_shards};
ghost use Rattle.eris_rules.specs.InPlace.{names_exactly};
ghost use Rattle.eris_rules.specs.Votes.{answer_fits, late_fits, role_fits, vote_fits, waits_for};
ghost use Rattle.eris_txn.specs.Bodies.{has_shard, participants_of};
ghost use Rattle.eris_client.specs.Halves.{fits_half};

use crate::courses::course_phase;
use crate::shards::{count_of, has_shard, names_shards};
use eris_base::{Phase, ShardId, Stamp, learner};
use eris_locks::is_same_phase;
use eris_rules::{Course, Transaction, Vote};
use eris_txn::Answer;

/// Whether the transaction waits for answers to this half.
#[tactic(auto, unfolding(eris_rules::specs::Votes::waits_for))]
pub fn waits_for(transaction: &Transaction, phase: Phase) -> bool
    ensures { result ≡ waits_for transaction.now phase }
{
    !transaction.finished && is_same_phase(phase, course_phase(&transaction.course))
}

/// Whether the body's packet can have got the vote: it is from a participant, by a stamp that names exactly
/// the participants, and from the right replica. It needs the shards of the body's items.
#[tactic(auto, unfolding(eris_rules::specs::Votes::vote_fits))]
pub fn vote_fits(f: u8, course: &Course, shards: &[ShardId], vote: &Vote) -> bool
    requires few { f ≤ 3 }
    requires shards { shards.now ≡ item_shards (body_of course.now) }
    ensures { result ≡ vote_fits f (body_of course.now) vote.now }
{
    takes_part(course, shards, vote.shard)
        && names_exactly(course, shards, &vote.stamp)
        && role_fits(f, course, shards, vote)
}

/// Whether the shard takes part in the body.
fn takes_part(course: &Course, shards: &[ShardId], shard: ShardId) -> bool
    requires { shards.now ≡ item_shards (body_of course.now) }
    ensures { result ≡ has_shard (participants_of (body_of course.now)) shard }
{
    has_shard(shards, shard)
}

/// Whether the stamp names exactly the participants.
fn names_exactly(course: &Course, shards: &[ShardId], stamp: &Stamp) -> bool
    requires { shards.now ≡ item_shards (body_of course.now) }
    ensures { result ≡ names_exactly stamp.now (participants_of (body_of course.now)) }
{
    let _places = stamp.places();
    names_shards(stamp, shards)
}

/// Whether the learner of the view answers, fittingly, or another replica vouches.
fn role_fits(f: u8, course: &Course, shards: &[ShardId], vote: &Vote) -> bool
    requires few { f ≤ 3 }
    requires shards { shards.now ≡ item_shards (body_of course.now) }
    ensures { result ≡ role_fits f (body_of course.now) vote.now vote.now.answer }
{
    let leads = vote.replica == learner(vote.view, f);
    match &vote.answer {
        Some(answer) => leads && answer_fits(course, shards, vote.shard, answer),
        None => !leads,
    }
}

/// Whether the shard can give the answer to the body.
fn answer_fits(course: &Course, shards: &[ShardId], shard: ShardId, answer: &Answer) -> bool
    requires { shards.now ≡ item_shards (body_of course.now) }
    ensures { result ≡ answer_fits (body_of course.now) shard answer.now }
{
    fits_half(course_phase(course), count_of(shards, shard), answer)
}

fn fits_half(phase: Phase, count: usize, answer: &Answer) -> bool
    ensures { result ≡ fits_half phase count answer.now }
{
    match (phase, answer) {
        (Phase::Whole, Answer::Ops(answers)) => answers.len() == count,
        (Phase::Prelim, Answer::Values(values)) => values.len() == count,
        (Phase::Prelim, Answer::Aborted) => true,
        (Phase::Conclude, Answer::Committed) => true,
        (Phase::Conclude, Answer::Aborted) => true,
        _ => false,
    }
}

/// Whether the body can have got the late answer. It needs the shards of the body's items.
#[tactic(auto, unfolding(eris_rules::specs::Votes::late_fits))]
pub fn late_fits(course: &Course, shards: &[ShardId], shard: ShardId, answer: &Answer) -> bool
    requires { shards.now ≡ item_shards (body_of course.now) }
    ensures { result ≡ late_fits (body_of course.now) shard answer.now }
{
    takes_part(course, shards, shard) && answer_fits(course, shards, shard, answer)
}
