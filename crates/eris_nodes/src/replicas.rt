ghost use Rattle.std.specs.Prelude.{◌≡◌, [], false, true, IfOk, OnErr, OnOk};
ghost use Rattle.std.specs.List.{list_any};
ghost use Rattle.eris_base.specs.ConfigLimits.{ConfigValue};
ghost use Rattle.eris_in_place.specs.MessageRanges.{SendsFit};
ghost use Rattle.eris_msg.specs.declared.message.Message.{Message};
ghost use Rattle.eris_msg.specs.Spellings.{IsSpelling};
ghost use Rattle.eris_replica.specs.ReplicaValues.{InputFits};
ghost use Rattle.eris_nodes.specs.ReplicaRows.{AreRows, first_rows, log_of, replicas_step, rows_of};
ghost use Rattle.eris_rules.specs.declared.replica_input.ReplicaInput.TheVariants as inputs;
ghost use Rattle.eris_rules.specs.Reports.{all_lines};
ghost use Rattle.eris_rules.specs.WorldOrders.{is_held_by, is_held_in};
ghost use Rattle.eris_rules.specs.Worlds.{WorldState, replica_at};

use crate::members::{Members, leave};
use eris_base::{Config, Epoch, NoMemory, ReplicaId, Row, ShardId};
use eris_event::ReplicaLine;
use eris_msg::Outgoing;
use eris_rules::ReplicaInput;
use eris_txn::Packet;
use std::alloc::Global;
use std::marker::Model;

/// The replicas of all shards. Contracts see their states, by shard and replica.
#[derive(Debug, Drop)]
pub struct Replicas {
    alloc: Global,
    config: Config,
    rows: Vec<Members>,
}

impl Model for Replicas {
    ghost use Rattle.std.specs.Prelude.{◌≡◌, false};
    ghost use Rattle.eris_nodes.specs.ReplicaRows.{ReplicasValue, AreRows, any_spent, rows_of};

    ghost Value = { ReplicasValue };

    ghost view = { λ r. record { config = r.config; rows = rows_of r.rows.items; spent = any_spent r.rows.items } };

    ghost invariant = { λ r. any_spent r.rows.items ≡ false → AreRows r.config 0 r.rows.items };
}

impl Replicas {
    /// All replicas at their start.
    pub fn new(alloc: Global, config: Config) -> Result<Replicas, NoMemory>
        ensures { IfOk result (λ made. made ≡ record { config = config; rows = first_rows config; spent = false }) }
    {
        let rows = first_rows(alloc, config)?;
        Ok(Replicas {
            alloc,
            config,
            rows,
        })
    }

    /// A replica takes an input, and answers what it sends; where there is no such replica nothing is done and
    /// nothing sent. After [`NoMemory`] they are spent.
    pub fn step(
        &mut self,
        shard: ShardId,
        replica: ReplicaId,
        input: ReplicaInput,
    ) -> Result<Row<Outgoing>, NoMemory>
        requires unspent { self.old.spent ≡ false }
        requires input { InputFits input }
        ensures ok { IfOk result (λ sends. record { rows = self.new.rows; sends = sends }
            ≡ replicas_step self.old.config self.old.rows shard replica input) }
        ensures fits { IfOk result (λ sends. SendsFit sends) }
        ensures stays { OnOk result (self.new ≡ record self.old { rows = self.new.rows }) }
        ensures err { OnErr result (self.new.spent ≡ true) }
    {
        let at = shard.0 as usize;
        if at >= self.rows.len() {
            leave(input);
            return Ok(Row::new(self.alloc));
        }
        let row = &mut self.rows[at];
        row.step(replica, input)
    }

    /// A replica takes the message that the bytes spell, as by [`step`](Replicas::step). Bytes that spell none
    /// change nothing and send nothing. After [`NoMemory`] they are spent.
    pub fn receive(
        &mut self,
        shard: ShardId,
        replica: ReplicaId,
        bytes: &[u8],
    ) -> Result<Row<Outgoing>, NoMemory>
        requires { self.old.spent ≡ false }
        ensures message { (message : Message) → IsSpelling message bytes.now → IfOk result (λ sends. record { rows = self.new.rows; sends = sends }
            ≡ replicas_step self.old.config self.old.rows shard replica (inputs.Message message)) }
        ensures noise { ((message : Message) → IsSpelling message bytes.now → ⊥) → IfOk result (λ sends.
            (sends ≡ []) × (self.new.rows ≡ self.old.rows)) }
        ensures fits { IfOk result (λ sends. SendsFit sends) }
        ensures stays { OnOk result (self.new ≡ record self.old { rows = self.new.rows }) }
        ensures err { OnErr result (self.new.spent ≡ true) }
    {
        let at = shard.0 as usize;
        if at >= self.rows.len() {
            return Ok(Row::new(self.alloc));
        }
        let row = &mut self.rows[at];
        row.receive(replica, bytes)
    }

    /// The settled log of a replica; nothing where there is no such replica.
    pub fn settled_log(&self, shard: ShardId, replica: ReplicaId) -> Result<Row<Packet>, NoMemory>
        ensures { IfOk result (λ log. log ≡ log_of (replica_at self.now.rows shard replica)) }
    {
        let at = shard.0 as usize;
        if at >= self.rows.len() {
            return Ok(Row::new(self.alloc));
        }
        let row = &self.rows[at];
        row.settled_log(replica)
    }

    /// Whether some replica of the epoch holds the packet, be it crashed or not.
    pub fn is_held(&self, epoch: Epoch, packet: &Packet) -> bool
        ensures { result ≡ is_held_in epoch self.now.rows packet.now }
    {
        any_row_holds(self.rows.as_slice(), epoch, packet)
    }

    /// A line for each replica, by shard and replica.
    pub fn lines(&self, crashed: &[(ShardId, ReplicaId)]) -> Result<Row<ReplicaLine>, NoMemory>
        requires { self.now.spent ≡ false }
        ensures { (world : WorldState) → world.crashed ≡ crashed.now → IfOk result (λ lines. lines ≡ all_lines world 0 self.now.rows) }
    {
        lines_of(self.alloc, self.rows.as_slice(), crashed)
    }
}

fn any_row_holds(rows: &[Members], epoch: Epoch, packet: &Packet) -> bool
    ensures { result ≡ list_any (λ row. list_any (is_held_by epoch packet.now) row.states) rows.now }
{
    rows.iter().any(|row| row.is_held(epoch, packet))
}

fn lines_of(
    alloc: Global,
    rows: &[Members],
    crashed: &[(ShardId, ReplicaId)],
) -> Result<Row<ReplicaLine>, NoMemory>
    ensures { (world : WorldState) → world.crashed ≡ crashed.now
        → (config : ConfigValue) → AreRows config 0 rows.now → IfOk result (λ lines. lines ≡ all_lines world 0 (rows_of rows.now)) }
{
    let mut lines = Row::new(alloc);
    for row in rows {
        row.add_lines(crashed, &mut lines)?;
    }
    Ok(lines)
}

#[tactic(auto, unfolding(crate::specs::ReplicaRows::first_rows))]
fn first_rows(alloc: Global, config: Config) -> Result<Vec<Members>, NoMemory>
    ensures states { IfOk result (λ rows. rows_of rows.items ≡ first_rows config) }
    ensures rows { IfOk result (λ rows. AreRows config 0 rows.items) }
{
    let mut rows = Vec::new(alloc);
    for shard in 0..config.shards() {
        let row = Members::new(alloc, config, ShardId(shard))?;
        rows.push(row)?;
    }
    Ok(rows)
}
