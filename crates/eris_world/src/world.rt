ghost use Rattle.std.specs.Prelude.{◌≡◌, false, true, is_some, length, option_map, slice_get, Some, IfOk, IfErr, OnOk};
ghost use Rattle.eris_network.specs.Networks.{frame_at};
ghost use Rattle.eris_nodes.specs.ReplicaRows.{log_of};
ghost use Rattle.eris_rules.specs.Worlds.{first_world, replica_at};
ghost use Rattle.eris_world.specs.Checking.{is_end};
ghost use Rattle.eris_rules.specs.Runs.{world_after};
ghost use Rattle.eris_world.specs.WorldValues.{CanGoOn, EventFits, IsCause};

use crate::refusing::{is_end, refusal_of};
use eris_base::{Config, NoMemory, ReplicaId, Row, ShardId};
use eris_coord::Coordinator;
use eris_event::{Event, Refusal};
use eris_network::Network;
use eris_nodes::{Clients, Replicas};
use eris_sequencer::Sequencers;
use eris_txn::{HistoryEvent, Packet};
use std::alloc::Global;
use std::marker::Model;

/// All nodes of a system, every message that was ever sent, and what happened at the clients. Contracts see
/// it as its config and the rules' state, beside whether it is spent.
#[derive(Debug, Drop)]
pub struct World {
    pub(crate) alloc: Global,
    pub(crate) config: Config,
    pub(crate) sequencers: Sequencers,
    pub(crate) coordinator: Coordinator,
    pub(crate) replicas: Replicas,
    pub(crate) clients: Clients,
    pub(crate) network: Network,
    pub(crate) crashed: Row<(ShardId, ReplicaId)>,
    pub(crate) history: Row<HistoryEvent>,
    pub(crate) spent: bool,
}

impl Model for World {
    ghost use Rattle.std.specs.Prelude.{◌≡◌, false};
    ghost use Rattle.eris_world.specs.WorldFacts.{IsWhole};
    ghost use Rattle.eris_world.specs.WorldValues.{WorldValue};

    ghost Value = { WorldValue };

    ghost view = { λ w. record {
      config = w.config;
      state = record {
        stampings = w.sequencers.stampings;
        coordinator = w.coordinator.state;
        replicas = w.replicas.rows;
        clients = w.clients.states;
        sent = w.network.sent;
        waiting = w.network.waiting;
        crashed = w.crashed;
        history = w.history;
      };
      spent = w.spent;
    } };

    ghost invariant = { λ w. w.spent ≡ false → IsWhole w.config w.sequencers w.coordinator w.replicas w.clients w.network };
}

impl World {
    /// All nodes at their start, and no message.
    ///
    /// # Errors
    ///
    /// [`NoMemory`] where an allocation was refused.
    #[tactic(auto, unfolding(eris_rules::specs::Worlds::first_world, eris_nodes::specs::ReplicaRows::first_rows))]
    pub fn new(alloc: Global, config: Config) -> Result<World, NoMemory>
        ensures { IfOk result (λ world. world ≡ record { config = config; state = first_world config; spent = false }) }
    {
        let sequencers = Sequencers::new(alloc, config)?;
        let replicas = Replicas::new(alloc, config)?;
        let clients = Clients::new(alloc, config)?;
        let coordinator = Coordinator::new(alloc, config);
        let network = Network::new(alloc);
        Ok(World {
            alloc,
            config,
            sequencers,
            coordinator,
            replicas,
            clients,
            network,
            crashed: Row::new(alloc),
            history: Row::new(alloc),
            spent: false,
        })
    }

    /// Whether a limit or want of memory has spent the world; its other calls ask that it isn't. It takes no
    /// memory.
    pub fn is_spent(&self) -> bool
        ensures { result ≡ self.now.spent }
    {
        self.spent
    }

    /// How many packets were sent. It takes no memory.
    pub fn sent(&self) -> u32
        ensures { result ≡ length self.now.state.sent }
    {
        self.network.sent()
    }

    /// The frame in which the sent packet of this number is kept. None exactly where no such packet was sent.
    /// It takes no memory.
    pub fn packet(&self, number: u32) -> Option<&[u8]>
        ensures { option_map (λ bytes. bytes.now) result ≡ frame_at self.now.state.sent number }
    {
        self.network.packet(number)
    }

    /// The settled log of a replica, be it crashed or not; nothing where there is no such replica.
    pub fn settled_log(&self, shard: ShardId, replica: ReplicaId) -> Result<Row<Packet>, NoMemory>
        requires { self.now.spent ≡ false }
        ensures { IfOk result (λ log. log ≡ log_of (replica_at self.now.state.replicas shard replica)) }
    {
        self.replicas.settled_log(shard, replica)
    }

    /// Whether a packet waits, so that a flow would deliver it. It takes no memory.
    pub fn has_waiting(&self) -> bool
        requires { self.now.spent ≡ false }
        ensures { result ≡ is_some (slice_get self.now.state.waiting 0) }
    {
        self.network.lowest().is_some()
    }

    /// One event, whose fields are in the ranges of a script's lines. A node gets bytes, which it reads itself:
    /// those of a message that comes to it, and those of noise, in which it finds none. The sequencers alone are
    /// handed a message that is read for them.
    ///
    /// # Errors
    ///
    /// The first cause of its kind for which the event is refused; the world is then unchanged. `Packets`
    /// exactly where the sent packets would be more than 262,144, else `Bytes` exactly where their frames would
    /// have more than 67,108,864 bytes. After these two, and after `NoMemory`, the world is spent.
    pub fn apply(&mut self, event: Event) -> Result<(), Refusal>
        requires unspent { self.old.spent ≡ false }
        requires fits { EventFits event }
        requires room { CanGoOn self.old.state }
        ensures ok { OnOk result (world_after self.old.config self.old.state event ≡ Some self.new.state) }
        ensures stays { OnOk result (self.new ≡ record self.old { state = self.new.state }) }
        ensures refused { IfErr result (IsCause self.old.config self.old.state event) }
        ensures unchanged { IfErr result (λ cause. is_end cause ≡ false → self.new ≡ self.old) }
        ensures spent { IfErr result (λ cause. is_end cause ≡ true → self.new.spent ≡ true) }
    {
        match self.check(&event) {
            Ok(()) => {}
            Err(refusal) => {
                self.spent = is_end(refusal);
                return Err(refusal);
            }
        }
        match self.happen(event) {
            Ok(()) => Ok(()),
            Err(fault) => Err(refusal_of(fault)),
        }
    }
}
