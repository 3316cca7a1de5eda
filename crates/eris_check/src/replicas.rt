ghost use Rattle.std.specs.Prelude.{◌≡◌, ◌++◌, map, IfOk, OnOk};
ghost use Rattle.std.specs.List.{flat_map, range_with_len};
ghost use Rattle.eris_report_range.specs.ReportRanges.{replica_at, replicas_of};

use eris_base::{Config, NoMemory, ReplicaId, Row, ShardId};
use std::alloc::Global;

// Adds the replicas of a shard.
#[tactic(auto, using(crate::proofs::ReplicaSteps::replica_steps))]
fn add_replicas(names: &mut Row<(ShardId, ReplicaId)>, shard: u8, count: u8) -> Result<(), NoMemory>
    ensures { OnOk result (names.new ≡ names.old ++ map (replica_at shard) (range_with_len 0 count)) }
{
    for replica in 0..count {
        names.push((ShardId(shard), ReplicaId(replica)))?;
    }
    Ok(())
}

// The replicas of so many shards, so many in each.
#[tactic(auto, using(crate::proofs::ReplicaSteps::shard_steps))]
fn replicas_in(alloc: Global, shards: u8, count: u8) -> Result<Row<(ShardId, ReplicaId)>, NoMemory>
    ensures { IfOk result (λ names. names ≡ flat_map (λ shard. map (replica_at shard) (range_with_len 0 count)) (range_with_len 0 shards)) }
{
    let mut names = Row::new(alloc);
    for shard in 0..shards {
        add_replicas(&mut names, shard, count)?;
    }
    Ok(names)
}

/// The replicas of a config, by shard, then replica.
pub(crate) fn replicas_of(
    alloc: Global,
    config: &Config,
) -> Result<Row<(ShardId, ReplicaId)>, NoMemory>
    ensures { IfOk result (λ names. names ≡ replicas_of config.now) }
{
    let names = replicas_in(alloc, config.shards(), 2 * config.f() + 1)?;
    Ok(names)
}
