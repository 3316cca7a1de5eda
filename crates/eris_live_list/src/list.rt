ghost use Rattle.std.specs.Prelude.{◌≡◌, ◌≤◌, IfOk};
ghost use Rattle.eris_live_list.specs.LiveLists.{after_words, draw, draws_of, increments, key_of, submission, transfer};
ghost use Rattle.eris_event.specs.declared.event.Event.{Event};

use eris_base::{ClientId, NoMemory, Row, ShardId};
use eris_event::Event;
use eris_txn::{How, Key, Name, Op, Plan, Setting};
use rand_core::utils::NextWord;
use rand_pcg::Lcg64Xsh32;
use std::alloc::Global;

/// The generator of a client's draws in the live run of a seed.
#[tactic(auto, unfolding(crate::specs::LiveLists::draws_of))]
pub fn client_generator(seed: u64, client: ClientId) -> Lcg64Xsh32
    ensures { result ≡ draws_of seed client }
{
    Lcg64Xsh32::new(seed, u64::from(client.0))
}

/// What the client submits next: at a draw of 0 an independent transaction, else a general one. It
/// draws one word, whatever it answers.
#[tactic(auto, unfolding(crate::specs::LiveLists::submission))]
pub fn next_submission(
    alloc: Global,
    client: ClientId,
    draws: &mut Lcg64Xsh32,
) -> Result<Event, NoMemory>
    ensures drawn { IfOk result (λ event. event ≡ submission client (draw 2 draws.old)) }
    ensures left { draws.new ≡ after_words 1 draws.old }
{
    if next_draw(draws) == 0 {
        independent(alloc, client)
    } else {
        let plan = transfer(alloc)?;
        Ok(Event::General { client, plan })
    }
}

#[tactic(auto, using(crate::proofs::Words::one_word))]
fn next_draw(draws: &mut Lcg64Xsh32) -> u32
    ensures drawn { result ≡ draw 2 draws.old }
    ensures left { draws.new ≡ after_words 1 draws.old }
{
    draws.next_word() % 2
}

#[tactic(auto, using(crate::proofs::Keys::letter_name), unfolding(crate::specs::LiveLists::key_of))]
fn key_of(shard: u8, letter: u8) -> Key
    requires letter { (97 ≤ letter) × (letter ≤ 122) }
    ensures { result ≡ key_of shard letter }
{
    let Some(name) = Name::new(&[letter]) else {
        unreachable!();
    };
    Key {
        shard: ShardId(shard),
        name,
    }
}

/// 1 is added to a value on each shard.
#[tactic(auto, unfolding(crate::specs::LiveLists::increments))]
fn independent(alloc: Global, client: ClientId) -> Result<Event, NoMemory>
    ensures { IfOk result (λ event. event ≡ Event.Submit client increments) }
{
    let mut ops = Row::new(alloc);
    ops.push(Op::Add(key_of(0, b'x'), 1))?;
    ops.push(Op::Add(key_of(1, b'x'), 1))?;
    Ok(Event::Submit { client, ops })
}

/// 1 is added to a value on each shard, both of which are locked.
fn transfer(alloc: Global) -> Result<Plan, NoMemory>
    ensures { IfOk result (λ plan. plan ≡ transfer) }
{
    let keys = keys(alloc)?;
    let settings = settings(alloc)?;
    match Plan::new(alloc, keys, Row::new(alloc), settings) {
        Ok(plan) => Ok(plan),
        Err(_) => unreachable!(),
    }
}

#[tactic(auto, unfolding(crate::specs::LiveLists::transfer))]
fn keys(alloc: Global) -> Result<Row<Key>, NoMemory>
    ensures { IfOk result (λ keys. keys ≡ transfer.keys) }
{
    let mut keys = Row::new(alloc);
    keys.push(key_of(0, b'x'))?;
    keys.push(key_of(1, b'y'))?;
    Ok(keys)
}

#[tactic(auto, unfolding(crate::specs::LiveLists::transfer))]
fn settings(alloc: Global) -> Result<Row<Setting>, NoMemory>
    ensures { IfOk result (λ settings. settings ≡ transfer.settings) }
{
    let mut settings = Row::new(alloc);
    settings.push(Setting {
        key: key_of(0, b'x'),
        how: How::Plus(1),
    })?;
    settings.push(Setting {
        key: key_of(1, b'y'),
        how: How::Plus(1),
    })?;
    Ok(settings)
}
