//! The way to a higher epoch.
ghost use Rattle.std.specs.Prelude.{◌≡◌, IfOk};
ghost use Rattle.eris_rules.specs.Coordinators.{new_epoch_row, new_epoch_above, raises_target, epoch_state_row, epoch_state_late, nudge_step};
ghost use Rattle.eris_coord.specs.CoordinatorValues.{after};

use crate::sends::tell_all;
use crate::state::State;
use eris_base::{Epoch, NoMemory, ReplicaId, Row, ShardId};
use eris_epoch::EpochTally;
use eris_log::Part;
use eris_msg::{Message, Outgoing};

impl State {
    /// A replica waits for an epoch.
    #[tactic(auto, unfolding(eris_rules::specs::Coordinators::new_epoch_row))]
    pub fn new_epoch(
        &mut self,
        shard: ShardId,
        replica: ReplicaId,
        epoch: Epoch,
    ) -> Result<Row<Outgoing>, NoMemory>
        ensures { IfOk result (λ sends. (self.new, sends) ≡ after self.old
            (new_epoch_row self.old.config self.old.state shard replica epoch)) }
    {
        if epoch.0 <= self.current.0 {
            return self.start(shard, replica);
        }
        self.new_epoch_above(epoch)
    }

    #[tactic(auto, unfolding(eris_rules::specs::Coordinators::new_epoch_above))]
    fn new_epoch_above(&mut self, epoch: Epoch) -> Result<Row<Outgoing>, NoMemory>
        ensures { IfOk result (λ sends. (self.new, sends) ≡ after self.old
            (new_epoch_above self.old.config self.old.state epoch)) }
    {
        if self.tally.target().0 < epoch.0 {
            return self.raise_target(epoch);
        }
        Ok(Row::new(self.alloc))
    }

    /// Makes the epoch the target, and asks all replicas to stop.
    #[tactic(auto, unfolding(eris_rules::specs::Coordinators::raises_target, eris_epoch::specs::EpochTallies::no_notes))]
    fn raise_target(&mut self, epoch: Epoch) -> Result<Row<Outgoing>, NoMemory>
        ensures { IfOk result (λ sends. (self.new, sends) ≡ after self.old
            (raises_target self.old.config self.old.state epoch)) }
    {
        self.tally = EpochTally::new(self.alloc, epoch, self.config);
        tell_all(self.alloc, &self.config, Message::EpochAsk { epoch })
    }

    /// A replica stopped for an epoch, and this is what it knows.
    #[tactic(auto, unfolding(eris_rules::specs::Coordinators::epoch_state_row))]
    pub fn epoch_state(
        &mut self,
        replica: ReplicaId,
        epoch: Epoch,
        part: Part,
    ) -> Result<Row<Outgoing>, NoMemory>
        ensures { IfOk result (λ sends. (self.new, sends) ≡ after self.old
            (epoch_state_row self.old.config self.old.state replica epoch part)) }
    {
        if epoch == self.tally.target() && self.current.0 < epoch.0 {
            return self.note_state(replica, part);
        }
        self.epoch_state_late(replica, epoch, &part)
    }

    #[tactic(auto, unfolding(eris_rules::specs::Coordinators::epoch_state_late))]
    fn epoch_state_late(
        &mut self,
        replica: ReplicaId,
        epoch: Epoch,
        part: &Part,
    ) -> Result<Row<Outgoing>, NoMemory>
        ensures { IfOk result (λ sends. (self.new, sends) ≡ after self.old
            (epoch_state_late self.old.state replica epoch part.now)) }
    {
        if epoch.0 <= self.current.0 {
            return self.start(part.shard(), replica);
        }
        Ok(Row::new(self.alloc))
    }

    /// Asks again for what it waits for.
    #[tactic(auto, unfolding(eris_rules::specs::Coordinators::nudge_step))]
    pub fn nudge(&mut self) -> Result<Row<Outgoing>, NoMemory>
        ensures { IfOk result (λ sends. (self.new, sends) ≡ after self.old
            (nudge_step self.old.config self.old.state)) }
    {
        if self.is_frozen() {
            let epoch = self.tally.target();
            return tell_all(self.alloc, &self.config, Message::EpochAsk { epoch });
        }
        self.ask_again()
    }
}
