//! The closing of epochs.
ghost use Rattle.std.specs.Prelude.{◌≡◌, IfOk, OnOk};
ghost use Rattle.eris_epoch.specs.EpochTallies.{is_ready};
ghost use Rattle.eris_rules.specs.Coordinators.{epoch_tally, notes_state, tests_closing, closes, after_closing};
ghost use Rattle.eris_coord.specs.CoordinatorValues.{after};

use crate::packets::add_all;
use crate::sends::start_all;
use crate::state::State;
use eris_base::{NoMemory, ReplicaId, Row};
use eris_drop::DropCount;
use eris_epoch::EpochTally;
use eris_log::Part;
use eris_msg::Outgoing;

impl State {
    /// Notes the part of a replica for the target.
    #[tactic(auto, unfolding(eris_rules::specs::Coordinators::notes_state, eris_epoch::specs::EpochTallies::note_state))]
    pub fn note_state(&mut self, replica: ReplicaId, part: Part) -> Result<Row<Outgoing>, NoMemory>
        ensures { IfOk result (λ sends. (self.new, sends) ≡ after self.old
            (notes_state self.old.config self.old.state replica part)) }
    {
        self.tally.note(replica, part)?;
        self.test_closing()
    }

    /// Closes, if enough replicas of every shard are noted.
    #[tactic(auto, unfolding(eris_rules::specs::Coordinators::tests_closing))]
    fn test_closing(&mut self) -> Result<Row<Outgoing>, NoMemory>
        ensures { IfOk result (λ sends. (self.new, sends) ≡ after self.old
            (tests_closing self.old.config self.old.state)) }
    {
        if self.is_ready() {
            return self.close();
        }
        Ok(Row::new(self.alloc))
    }

    /// Whether enough replicas of every shard are noted.
    fn is_ready(&self) -> bool
        ensures { result ≡ is_ready (epoch_tally self.now.config self.now.state) }
    {
        self.tally.ready()
    }

    /// Closes the epochs below the target, and starts the target at all replicas.
    #[tactic(auto, unfolding(eris_rules::specs::Coordinators::closes, eris_rules::specs::Coordinators::starts_all, eris_rules::specs::Coordinators::starts_shard))]
    fn close(&mut self) -> Result<Row<Outgoing>, NoMemory>
        ensures { IfOk result (λ sends. (self.new, sends) ≡ after self.old (closes self.old.config self.old.state)) }
    {
        self.begin_target()?;
        start_all(
            self.alloc,
            &self.config,
            self.current,
            self.closed.as_slice(),
        )
    }

    /// Adds what the current epoch leaves to the closed packets, and goes to the target, in which nothing was
    /// asked yet.
    #[tactic(auto, using(crate::proofs::Told::close_is), unfolding(eris_rules::specs::Coordinators::after_closing, eris_rules::specs::Coordinators::left_behind, eris_rules::specs::CoordStates::begun_epoch, eris_rules::specs::CoordStates::nothing_asked, eris_epoch::specs::EpochTallies::no_notes))]
    fn begin_target(&mut self) -> Result<(), NoMemory>
        ensures { OnOk result (self.new ≡ record self.old { state = after_closing self.old.config self.old.state }) }
    {
        let left = self.tally.close(self.current, self.found.as_slice(), self.dropped.as_slice())?;
        add_all(&mut self.closed, left)?;
        self.current = self.tally.target();
        self.tally = EpochTally::new(self.alloc, self.current, self.config);
        self.asked = Row::new(self.alloc);
        self.count = DropCount::new(self.alloc, self.config);
        self.found = Row::new(self.alloc);
        self.dropped = Row::new(self.alloc);
        Ok(())
    }
}
