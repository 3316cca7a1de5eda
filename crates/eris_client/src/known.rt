//! Whether a client of the config can submit a transaction.
ghost use Rattle.std.specs.Prelude.{◌≡◌, map, true, IsTrue};
ghost use Rattle.eris_base.specs.Each.{Each};
ghost use Rattle.eris_txn.specs.Operations.{key_of};
ghost use Rattle.eris_txn.specs.Sizes.{txn_has_size};
ghost use Rattle.eris_codec.specs.Fields as f;
ghost use Rattle.eris_rules.specs.Known.{knows_keys, knows_shard};
ghost use Rattle.eris_client.specs.ClientRanges.{HowFits, PlanFits, TxnFits, keys_in};

use eris_base::Config;
use eris_txn::{How, Key, Op, Plan, Setting, Txn};

/// Whether the shards of all keys of the transaction are of the config. If they are, a client can submit it,
/// if it has 1 to 32 operations or is a general one. It takes no memory.
#[tactic(auto, using(crate::proofs::KnownKeys::ops_fit))]
pub fn knows_txn(config: &Config, txn: &Txn) -> bool
    ensures exact { result ≡ knows_keys config.now (keys_in txn.now) }
    ensures fits { IsTrue (txn_has_size txn.now) → result ≡ true → TxnFits txn.now }
{
    match txn {
        Txn::Whole(ops) => knows_ops(config, ops.as_slice()),
        Txn::General(plan) => knows_plan(config, plan),
    }
}

#[tactic(auto, unfolding(eris_rules::specs::Known::knows_keys))]
fn knows_ops(config: &Config, ops: &[Op]) -> bool
    ensures exact { result ≡ knows_keys config.now (map key_of ops.now) }
    ensures fits { result ≡ true → Each (λ op. f.op.fits op ≡ true) ops.now }
{
    let mut rest = ops;
    while let [op, more @ ..] = rest {
        if !knows_op(config, op) {
            return false;
        }
        rest = more;
    }
    true
}

#[tactic(auto, using(crate::proofs::KnownKeys::op_fits))]
fn knows_op(config: &Config, op: &Op) -> bool
    ensures exact { result ≡ knows_shard config.now (key_of op.now).shard }
    ensures fits { result ≡ true → f.op.fits op.now ≡ true }
{
    match op {
        Op::Get(key) | Op::Del(key) => knows_key(config, key),
        Op::Put(key, value) => {
            let _value = *value;
            knows_key(config, key)
        }
        Op::Add(key, more) => {
            let _more = *more;
            knows_key(config, key)
        }
        Op::Cas(key, expected, value) => {
            let _numbers = (*expected, *value);
            knows_key(config, key)
        }
    }
}

#[tactic(auto, using(crate::proofs::KnownKeys::key_fits))]
fn knows_key(config: &Config, key: &Key) -> bool
    ensures exact { result ≡ knows_shard config.now key.now.shard }
    ensures fits { result ≡ true → f.key.fits key.now ≡ true }
{
    let _name = key.name.bytes();
    key.shard.0 < config.shards()
}

#[tactic(auto, unfolding(eris_rules::specs::Known::knows_keys))]
fn knows_keys(config: &Config, keys: &[Key]) -> bool
    ensures exact { result ≡ knows_keys config.now keys.now }
    ensures fits { result ≡ true → Each (λ key. f.key.fits key ≡ true) keys.now }
{
    let mut rest = keys;
    while let [key, more @ ..] = rest {
        if !knows_key(config, key) {
            return false;
        }
        rest = more;
    }
    true
}

#[tactic(auto, using(crate::proofs::KnownKeys::plan_fits))]
fn knows_plan(config: &Config, plan: &Plan) -> bool
    ensures exact { result ≡ knows_keys config.now plan.now.keys }
    ensures fits { result ≡ true → PlanFits plan.now }
{
    read_numbers(plan.settings());
    knows_keys(config, plan.keys())
}

/// The numbers that are put are in their type's range, as each shows when it is read.
fn read_numbers(settings: &[Setting])
    ensures { Each (λ setting. HowFits setting.how) settings.now }
{
    let mut rest = settings;
    while let [setting, more @ ..] = rest {
        read_number(&setting.how);
        rest = more;
    }
}

#[tactic(auto, unfolding(eris_codec::specs::Fields::value))]
fn read_number(how: &How)
    ensures { HowFits how.now }
{
    match how {
        How::Put(value) => {
            let _value = *value;
        }
        How::Plus(_) | How::Minus(_) => {}
    }
}
