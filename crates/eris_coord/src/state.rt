ghost use Rattle.std.specs.Prelude.{◌≡◌, IfOk, IsTrue};
ghost use Rattle.eris_log.specs.Places.{places_ascend};
ghost use Rattle.eris_rules.specs.CoordStates.{first_coordinator, is_frozen};
ghost use Rattle.eris_rules.specs.Coordinators.{decides_in, starts};
ghost use Rattle.eris_coord.specs.CoordinatorValues.{after};

use crate::sends::start_one;
use eris_base::{Config, Epoch, NoMemory, Place, ReplicaId, Row, ShardId};
use eris_drop::DropCount;
use eris_epoch::EpochTally;
use eris_msg::Outgoing;
use eris_txn::Packet;
use std::alloc::Global;
use std::marker::Model;

/// What the coordinator keeps: the places that it asks for, with the notes of their drops, what it found and
/// dropped in the current epoch, the packets of the closed epochs, and the parts that it noted on its way to
/// a higher one. Contracts see it as its config and the rules' state.
#[derive(Debug, Drop)]
pub struct State {
    pub alloc: Global,
    pub config: Config,
    pub current: Epoch,
    pub closed: Row<Packet>,
    pub tally: EpochTally,
    pub asked: Row<Place>,
    pub count: DropCount,
    pub found: Row<Packet>,
    pub dropped: Row<Place>,
}

impl Model for State {
    ghost use Rattle.eris_coord.specs.CoordinatorValues.{StateValue, IsState};

    ghost Value = { StateValue };

    ghost view = { λ s. record {
      config = s.config;
      state = record {
        current = s.current;
        target = s.tally.target;
        closed = s.closed;
        noted = s.tally.noted;
        inner = record { asked = s.asked; notes = s.count.notes; found = s.found; dropped = s.dropped };
      };
    } };

    ghost invariant = { λ s. IsState s.config s.tally.config s.count.config s.asked s.dropped };
}

impl State {
    /// The coordinator's state at the start. It takes no memory.
    #[tactic(auto, unfolding(eris_rules::specs::CoordStates::first_coordinator, eris_rules::specs::CoordStates::begun_epoch, eris_rules::specs::CoordStates::nothing_asked, eris_epoch::specs::EpochTallies::no_notes))]
    pub fn new(alloc: Global, config: Config) -> State
        ensures { result ≡ record { config = config; state = first_coordinator } }
    {
        State {
            alloc,
            config,
            current: Epoch(0),
            closed: Row::new(alloc),
            tally: EpochTally::new(alloc, Epoch(0), config),
            asked: Row::new(alloc),
            count: DropCount::new(alloc, config),
            found: Row::new(alloc),
            dropped: Row::new(alloc),
        }
    }

    pub fn current(&self) -> Epoch
        ensures { result ≡ self.now.state.current }
    {
        self.current
    }

    pub fn target(&self) -> Epoch
        ensures { result ≡ self.now.state.target }
    {
        self.tally.target()
    }

    pub fn asked(&self) -> &[Place]
        ensures exact { result.now ≡ self.now.state.inner.asked }
        ensures ascend { IsTrue (places_ascend result.now) }
    {
        self.asked.as_slice()
    }

    pub fn found(&self) -> &[Packet]
        ensures { result.now ≡ self.now.state.inner.found }
    {
        self.found.as_slice()
    }

    pub fn dropped(&self) -> &[Place]
        ensures exact { result.now ≡ self.now.state.inner.dropped }
        ensures ascend { IsTrue (places_ascend result.now) }
    {
        self.dropped.as_slice()
    }

    pub fn closed(&self) -> &[Packet]
        ensures { result.now ≡ self.now.state.closed }
    {
        self.closed.as_slice()
    }

    /// Whether it is on its way to a higher epoch.
    pub fn is_frozen(&self) -> bool
        ensures { result ≡ is_frozen self.now.state }
    {
        self.current.0 < self.tally.target().0
    }

    /// Whether it finds and drops in this epoch.
    pub fn decides_in(&self, epoch: Epoch) -> bool
        ensures { result ≡ decides_in self.now.state epoch }
    {
        epoch == self.current && !self.is_frozen()
    }

    /// Sends a replica that is behind the start of the current epoch.
    #[tactic(auto, unfolding(eris_rules::specs::Coordinators::starts))]
    pub fn start(&mut self, shard: ShardId, replica: ReplicaId) -> Result<Row<Outgoing>, NoMemory>
        ensures { IfOk result (λ sends. (self.new, sends) ≡ after self.old (starts self.old.state shard replica)) }
    {
        start_one(
            self.alloc,
            self.current,
            self.closed.as_slice(),
            shard,
            replica,
        )
    }
}
