//! Which row of the coordinator's table a message comes to.
ghost use Rattle.std.specs.Prelude.{◌≡◌, IfOk, IsTrue};
ghost use Rattle.eris_coord.specs.Fitting.{StateFits, InputFits};
ghost use Rattle.eris_in_place.specs.MessageRanges.{SendsFit};
ghost use Rattle.eris_rules.specs.Coordinators.{coord_step, coord_message_step, coord_takes, coord_takes_inner};
ghost use Rattle.eris_rules.specs.EpochMessages.{Notifies, Find, Has, TempDropped};
ghost use Rattle.eris_rules.specs.InPlace.{is_for_coordinator};
ghost use Rattle.eris_coord.specs.CoordinatorValues.{after};

use crate::state::State;
use eris_base::{NoMemory, Place, ReplicaId, Row};
use eris_drop::DropNote;
use eris_in_place::is_in_place_at_coordinator;
use eris_msg::{Message, Outgoing};
use eris_rules::CoordInput;
use eris_txn::Packet;

impl State {
    /// The coordinator's step by an input. Where what it keeps and the input are in the messages' ranges, so are
    /// what it keeps then and what it sends.
    pub fn step(&mut self, input: CoordInput) -> Result<Row<Outgoing>, NoMemory>
        ensures ok { IfOk result (λ sends. (self.new, sends) ≡ after self.old (coord_step self.old.config self.old.state input)) }
        ensures fits { StateFits self.old.state → InputFits input → IfOk result (λ sends. StateFits self.new.state × SendsFit sends) }
    {
        let _few_shards = self.config.shards();
        self.take_input(input)
    }

    #[tactic(auto, unfolding(eris_rules::specs::Coordinators::coord_step))]
    fn take_input(&mut self, input: CoordInput) -> Result<Row<Outgoing>, NoMemory>
        ensures { IfOk result (λ sends. (self.new, sends) ≡ after self.old (coord_step self.old.config self.old.state input)) }
    {
        match input {
            CoordInput::Message(message) => self.take_message(message),
            CoordInput::Nudge => self.nudge(),
        }
    }

    /// Takes a message, unless it is out of place.
    #[tactic(auto, using(crate::proofs::Told::kind_in_place), unfolding(eris_rules::specs::Coordinators::coord_message_step))]
    fn take_message(&mut self, message: Message) -> Result<Row<Outgoing>, NoMemory>
        ensures { IfOk result (λ sends. (self.new, sends) ≡ after self.old
            (coord_message_step self.old.config self.old.state message)) }
    {
        if is_in_place_at_coordinator(&self.config, &message) {
            return self.take(message);
        }
        Ok(Row::new(self.alloc))
    }

    #[tactic(auto, unfolding(eris_rules::specs::Coordinators::coord_takes))]
    fn take(&mut self, message: Message) -> Result<Row<Outgoing>, NoMemory>
        requires { IsTrue (is_for_coordinator message) }
        ensures { IfOk result (λ sends. (self.new, sends) ≡ after self.old
            (coord_takes self.old.config self.old.state message)) }
    {
        match message {
            Message::Find { replica, place } => self.take_find(replica, place),
            Message::Has { packet } => self.take_has(packet),
            Message::TempDropped {
                place,
                shard,
                replica,
                view,
            } => self.take_temp_dropped(DropNote {
                place,
                shard,
                replica,
                view,
            }),
            Message::NewEpoch {
                shard,
                replica,
                epoch,
            } => self.new_epoch(shard, replica, epoch),
            Message::EpochState {
                replica,
                epoch,
                part,
            } => self.epoch_state(replica, epoch, part),
            _ => Ok(Row::new(self.alloc)),
        }
    }

    /// A replica lacks a place. In an older epoch it lacks the epoch's end.
    #[tactic(auto, unfolding(eris_rules::specs::Coordinators::coord_takes_inner, eris_rules::specs::Coordinators::takes_elsewhere))]
    fn take_find(&mut self, replica: ReplicaId, place: Place) -> Result<Row<Outgoing>, NoMemory>
        ensures { IfOk result (λ sends. (self.new, sends) ≡ after self.old
            (coord_takes_inner self.old.config self.old.state (record { epoch = place.epoch; message = Notifies (Find replica place) }))) }
    {
        if self.decides_in(place.epoch) {
            return self.find(replica, place);
        }
        if place.epoch.0 < self.current.0 {
            return self.start(place.shard, replica);
        }
        Ok(Row::new(self.alloc))
    }

    #[tactic(auto, unfolding(eris_rules::specs::Coordinators::coord_takes_inner, eris_rules::specs::Coordinators::takes_elsewhere))]
    fn take_has(&mut self, packet: Packet) -> Result<Row<Outgoing>, NoMemory>
        ensures { IfOk result (λ sends. (self.new, sends) ≡ after self.old
            (coord_takes_inner self.old.config self.old.state (record { epoch = packet.stamp.epoch; message = Notifies (Has packet) }))) }
    {
        if self.decides_in(packet.stamp.epoch) {
            return self.has(packet);
        }
        Ok(Row::new(self.alloc))
    }

    #[tactic(auto, unfolding(eris_rules::specs::Coordinators::coord_takes_inner, eris_rules::specs::Coordinators::takes_elsewhere))]
    fn take_temp_dropped(&mut self, note: DropNote) -> Result<Row<Outgoing>, NoMemory>
        ensures { IfOk result (λ sends. (self.new, sends) ≡ after self.old
            (coord_takes_inner self.old.config self.old.state
            (record { epoch = note.place.epoch; message = Notifies (TempDropped note.place note.shard note.replica note.view) }))) }
    {
        if self.decides_in(note.place.epoch) {
            return self.temp_dropped(note);
        }
        Ok(Row::new(self.alloc))
    }
}
