ghost use Rattle.std.specs.Prelude.{◌≡◌, [], false, true, IfOk, OnErr, OnOk, IsTrue, slice_get, ◌++◌};
ghost use Rattle.std.specs.List.{list_any};
ghost use Rattle.eris_in_place.specs.MessageRanges.{SendsFit};
ghost use Rattle.eris_msg.specs.declared.message.Message.{Message};
ghost use Rattle.eris_msg.specs.Spellings.{IsSpelling};
ghost use Rattle.eris_replica.specs.ReplicaValues.{InputFits};
ghost use Rattle.eris_rules.specs.declared.replica_input.ReplicaInput.TheVariants as inputs;
ghost use Rattle.eris_rules.specs.Known.{knows_shard};
ghost use Rattle.eris_rules.specs.Reports.{line_state, replica_line, shard_lines};
ghost use Rattle.eris_rules.specs.WorldOrders.{is_held_by};
ghost use Rattle.eris_rules.specs.Worlds.{WorldState, first_replicas, same_replica_of};
ghost use Rattle.eris_nodes.specs.ReplicaRows.{log_of};
ghost use Rattle.eris_nodes.specs.MemberRows.{AreMembers, identity, members_step, states_of};

use eris_base::{Config, Epoch, NoMemory, ReplicaId, Row, ShardId};
use eris_event::{ReplicaLine, ReplicaState};
use eris_msg::Outgoing;
use eris_order_lines::has_packet;
use eris_replica::Replica;
use eris_rules::{ReplicaInput, ReplicaStatus};
use eris_txn::Packet;
use std::alloc::Global;
use std::marker::Model;

/// The replicas of one shard, each under its number. Contracts see their states.
#[derive(Debug, Drop)]
pub struct Members {
    alloc: Global,
    config: Config,
    shard: ShardId,
    members: Vec<Replica>,
}

impl Model for Members {
    ghost use Rattle.std.specs.Prelude.{◌≡◌, false};
    ghost use Rattle.eris_nodes.specs.MemberRows.{MembersValue, AreMembers, any_spent, states_of};

    ghost Value = { MembersValue };

    ghost view = { λ m. record { config = m.config; shard = m.shard; states = states_of m.members.items; spent = any_spent m.members.items } };

    ghost invariant = { λ m. any_spent m.members.items ≡ false → AreMembers m.config m.shard 0 m.members.items };
}

impl Members {
    /// All replicas of the shard at their start.
    pub fn new(alloc: Global, config: Config, shard: ShardId) -> Result<Members, NoMemory>
        requires { IsTrue (knows_shard config shard) }
        ensures { IfOk result (λ made. made ≡ record { config = config; shard = shard; states = first_replicas config shard; spent = false }) }
    {
        let members = first_members(alloc, config, shard)?;
        Ok(Members {
            alloc,
            config,
            shard,
            members,
        })
    }

    /// The replica of this number takes an input; where there is none nothing is done and nothing sent.
    pub fn step(
        &mut self,
        replica: ReplicaId,
        input: ReplicaInput,
    ) -> Result<Row<Outgoing>, NoMemory>
        requires unspent { self.old.spent ≡ false }
        requires input { InputFits input }
        ensures ok { IfOk result (λ sends. record { states = self.new.states; sends = sends }
            ≡ members_step (identity self.old.config self.old.shard replica.0) self.old.states input) }
        ensures fits { IfOk result (λ sends. SendsFit sends) }
        ensures stays { OnOk result (self.new ≡ record self.old { states = self.new.states }) }
        ensures err { OnErr result (self.new.spent ≡ true) }
    {
        let at = replica.0 as usize;
        if at >= self.members.len() {
            leave(input);
            return Ok(Row::new(self.alloc));
        }
        let member = &mut self.members[at];
        member.step(input)
    }

    /// The replica of this number takes the message that the bytes spell, as by [`step`](Members::step); where
    /// they spell none nothing is done and nothing sent.
    pub fn receive(&mut self, replica: ReplicaId, bytes: &[u8]) -> Result<Row<Outgoing>, NoMemory>
        requires { self.old.spent ≡ false }
        ensures message { (message : Message) → IsSpelling message bytes.now → IfOk result (λ sends. record { states = self.new.states; sends = sends }
            ≡ members_step (identity self.old.config self.old.shard replica.0) self.old.states (inputs.Message message)) }
        ensures noise { ((message : Message) → IsSpelling message bytes.now → ⊥) → IfOk result (λ sends.
            (sends ≡ []) × (self.new.states ≡ self.old.states)) }
        ensures fits { IfOk result (λ sends. SendsFit sends) }
        ensures stays { OnOk result (self.new ≡ record self.old { states = self.new.states }) }
        ensures err { OnErr result (self.new.spent ≡ true) }
    {
        let at = replica.0 as usize;
        if at >= self.members.len() {
            return Ok(Row::new(self.alloc));
        }
        let member = &mut self.members[at];
        member.receive(bytes)
    }

    /// The settled log of the replica of this number; nothing where there is none.
    pub fn settled_log(&self, replica: ReplicaId) -> Result<Row<Packet>, NoMemory>
        ensures { IfOk result (λ log. log ≡ log_of (slice_get self.now.states replica.0)) }
    {
        let at = replica.0 as usize;
        if at >= self.members.len() {
            return Ok(Row::new(self.alloc));
        }
        let member = &self.members[at];
        member.settled_log()
    }

    /// Whether one of them is in the epoch and holds the packet.
    pub fn is_held(&self, epoch: Epoch, packet: &Packet) -> bool
        ensures { result ≡ list_any (is_held_by epoch packet.now) self.now.states }
    {
        any_holds(self.members.as_slice(), epoch, packet)
    }

    /// Adds a line for each of them.
    pub fn add_lines(
        &self,
        crashed: &[(ShardId, ReplicaId)],
        lines: &mut Row<ReplicaLine>,
    ) -> Result<(), NoMemory>
        ensures { (world : WorldState) → world.crashed ≡ crashed.now
            → OnOk result (lines.new ≡ lines.old ++ shard_lines world self.now.shard 0 self.now.states) }
    {
        add_all_lines(self.members.as_slice(), self.shard, crashed, lines)
    }
}

fn any_holds(members: &[Replica], epoch: Epoch, packet: &Packet) -> bool
    ensures { result ≡ list_any (λ one. is_held_by epoch packet.now one.state) members.now }
{
    members.iter().any(|one| holds(one, epoch, packet))
}

#[tactic(auto, unfolding(eris_rules::specs::WorldOrders::is_held_by))]
fn holds(one: &Replica, epoch: Epoch, packet: &Packet) -> bool
    ensures { result ≡ is_held_by epoch packet.now one.now.state }
{
    one.epoch().0 == epoch.0 && has_packet(one.part(), packet)
}

fn add_all_lines(
    members: &[Replica],
    shard: ShardId,
    crashed: &[(ShardId, ReplicaId)],
    lines: &mut Row<ReplicaLine>,
) -> Result<(), NoMemory>
    ensures { (world : WorldState) → world.crashed ≡ crashed.now
        → OnOk result (lines.new ≡ lines.old ++ shard_lines world shard 0 (states_of members.now)) }
{
    for (number, member) in members.iter().enumerate() {
        let replica = ReplicaId(small(number)?);
        lines.push(line_of(member, shard, replica, crashed)?)?;
    }
    Ok(())
}

#[tactic(auto, unfolding(eris_rules::specs::Reports::replica_line, eris_rules::specs::Worlds::has_crashed))]
fn line_of(
    one: &Replica,
    shard: ShardId,
    replica: ReplicaId,
    crashed: &[(ShardId, ReplicaId)],
) -> Result<ReplicaLine, NoMemory>
    ensures { (world : WorldState) → world.crashed ≡ crashed.now → IfOk result (λ line. line ≡ replica_line world shard replica one.now.state) }
{
    let held = count_of(one.part().held_list().len())?;
    Ok(ReplicaLine {
        shard,
        replica,
        state: state_of(has_crashed(crashed, shard, replica), one),
        epoch: one.epoch(),
        view: one.view(),
        held,
        length: one.part().length(),
        settled: one.settled(),
    })
}

#[tactic(auto, unfolding(eris_rules::specs::Reports::line_state))]
fn state_of(crashed: bool, one: &Replica) -> ReplicaState
    ensures { result ≡ line_state crashed one.now.state }
{
    if crashed {
        return ReplicaState::Crashed;
    }
    if one.epoch().0 < one.promised().0 {
        return ReplicaState::Stopped;
    }
    match one.status() {
        ReplicaStatus::Normal => ReplicaState::Normal,
        ReplicaStatus::Changing => ReplicaState::Changing,
    }
}

/// Whether the replica is among those that have crashed. It takes no memory.
pub fn has_crashed(crashed: &[(ShardId, ReplicaId)], shard: ShardId, replica: ReplicaId) -> bool
    ensures { result ≡ list_any (same_replica_of shard replica) crashed.now }
{
    crashed
        .iter()
        .any(|pair| pair.0.0 == shard.0 && pair.1.0 == replica.0)
}

/// A count; more than it can tell are more than memory has.
pub fn count_of(count: usize) -> Result<u32, NoMemory>
    ensures { IfOk result (λ told. told ≡ count) }
{
    if count > u32::MAX as usize {
        return Err(NoMemory);
    }
    Ok(count as u32)
}

fn small(number: usize) -> Result<u8, NoMemory>
    ensures { IfOk result (λ told. told ≡ number) }
{
    if number > u8::MAX as usize {
        return Err(NoMemory);
    }
    Ok(number as u8)
}

#[tactic(auto, unfolding(eris_rules::specs::Worlds::first_replicas))]
fn first_members(alloc: Global, config: Config, shard: ShardId) -> Result<Vec<Replica>, NoMemory>
    requires { IsTrue (knows_shard config shard) }
    ensures states { IfOk result (λ members. states_of members.items ≡ first_replicas config shard) }
    ensures members { IfOk result (λ members. AreMembers config shard 0 members.items) }
{
    let mut members = Vec::new(alloc);
    for number in 0..2 * config.f() + 1 {
        let member = Replica::new(alloc, config, shard, ReplicaId(number));
        members.push(member)?;
    }
    Ok(members)
}

/// Nobody takes the input.
pub fn leave(_input: ReplicaInput) {}
