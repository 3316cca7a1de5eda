ghost use Rattle.std.specs.Prelude.{◌≡◌, ◌∷◌, ◌++◌, map, OnOk};
ghost use Rattle.std.specs.List.{flat_map};
ghost use Rattle.eris_report.specs.ReplicaText.{state_word, progress_words, replica_words};
ghost use Rattle.eris_words.specs.Words.{line, spaced};

use eris_base::{NoMemory, Row};
use eris_event::{ReplicaLine, ReplicaState};
use eris_words::{put_count, put_number, put_word};

pub(crate) fn put_replicas(out: &mut Row<u8>, replicas: &[ReplicaLine]) -> Result<(), NoMemory>
    ensures { OnOk result (out.new ≡ out.old ++ flat_map line (map replica_words replicas.now)) }
{
    for replica in replicas {
        put_replica(out, replica)?;
    }
    Ok(())
}

fn put_replica(out: &mut Row<u8>, replica: &ReplicaLine) -> Result<(), NoMemory>
    ensures { OnOk result (out.new ≡ out.old ++ line (replica_words replica.now)) }
{
    out.append(b"replica")?;
    put_number(out, u64::from(replica.shard.0))?;
    put_number(out, u64::from(replica.replica.0))?;
    put_state(out, replica.state)?;
    put_progress(out, replica)?;
    out.push(b'\n')
}

fn put_progress(out: &mut Row<u8>, replica: &ReplicaLine) -> Result<(), NoMemory>
    ensures { OnOk result (out.new ≡ out.old ++ spaced (progress_words replica.now)) }
{
    put_count(out, b"epoch", replica.epoch.0)?;
    put_count(out, b"view", replica.view.0)?;
    put_count(out, b"held", replica.held)?;
    put_count(out, b"length", replica.length)?;
    put_count(out, b"settled", replica.settled)
}

fn put_state(out: &mut Row<u8>, state: ReplicaState) -> Result<(), NoMemory>
    ensures { OnOk result (out.new ≡ out.old ++ 32 ∷ state_word state) }
{
    match state {
        ReplicaState::Crashed => put_word(out, b"crashed"),
        ReplicaState::Stopped => put_word(out, b"stopped"),
        ReplicaState::Normal => put_word(out, b"normal"),
        ReplicaState::Changing => put_word(out, b"changing"),
    }
}
