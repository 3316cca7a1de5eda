//! A packet that a replica has, and a place that one dropped for a time.
ghost use Rattle.std.specs.Prelude.{◌≡◌, IfOk, OnOk};
ghost use Rattle.eris_rules.specs.Coordinators.{coord_steps_in};
ghost use Rattle.eris_rules.specs.EpochCoords.{has_row, has_wanted, keeps_found, places_had, drops_rest, temp_dropped_row, notes_drop, drops_decided, drops_place};
ghost use Rattle.eris_coord.specs.CoordinatorValues.{after};

use crate::notes::forget_all;
use crate::places::{add, add_all, places_had, remove, remove_had};
use crate::sends::{drop_all, tell_all};
use crate::state::State;
use eris_base::{Dup, NoMemory, Place, Row};
use eris_drop::DropNote;
use eris_log::places::{any_among, is_among, places_of};
use eris_msg::{Message, Outgoing};
use eris_txn::Packet;

impl State {
    /// A replica has a packet of the current epoch.
    #[tactic(auto, unfolding(eris_rules::specs::EpochCoords::has_row))]
    pub fn has(&mut self, packet: Packet) -> Result<Row<Outgoing>, NoMemory>
        ensures { IfOk result (λ sends. (self.new, sends) ≡ after self.old
            (coord_steps_in self.old.state (has_row self.old.config self.old.state.inner packet))) }
    {
        if any_among(self.dropped.as_slice(), &packet.stamp) {
            return self.drop_rest(&packet);
        }
        self.keep_wanted(packet)
    }

    /// Finds the packet, if one of its places is asked for.
    #[tactic(auto, unfolding(eris_rules::specs::Coordinators::coord_steps_in, eris_rules::specs::EpochCoords::has_wanted))]
    fn keep_wanted(&mut self, packet: Packet) -> Result<Row<Outgoing>, NoMemory>
        ensures { IfOk result (λ sends. (self.new, sends) ≡ after self.old
            (coord_steps_in self.old.state (has_wanted self.old.config self.old.state.inner packet))) }
    {
        if any_among(self.asked.as_slice(), &packet.stamp) {
            return self.keep_found(packet);
        }
        Ok(Row::new(self.alloc))
    }

    #[tactic(auto, using(crate::proofs::Told::keeps_found_told))]
    fn keep_found(&mut self, packet: Packet) -> Result<Row<Outgoing>, NoMemory>
        ensures { IfOk result (λ sends. (self.new, sends) ≡ after self.old
            (coord_steps_in self.old.state (keeps_found self.old.config self.old.state.inner packet))) }
    {
        let places = places_of(self.alloc, &packet.stamp)?;
        remove_had(self.alloc, &mut self.asked, &packet.stamp);
        forget_all(&mut self.count, places.as_slice());
        let told = packet.copy(self.alloc)?;
        self.found.push(packet)?;
        tell_all(self.alloc, &self.config, Message::Found { packet: told })
    }

    /// Drops the asked places of a packet of which a place is dropped.
    fn drop_rest(&mut self, packet: &Packet) -> Result<Row<Outgoing>, NoMemory>
        ensures { IfOk result (λ sends. (self.new, sends) ≡ after self.old
            (coord_steps_in self.old.state (drops_rest self.old.config self.old.state.inner packet.now))) }
    {
        let had = self.move_to_dropped(packet)?;
        drop_all(self.alloc, &self.config, had.as_slice())
    }

    /// Moves the asked places of a packet to the dropped ones, and answers them.
    #[tactic(auto, unfolding(eris_rules::specs::Coordinators::coord_steps_in, eris_rules::specs::EpochCoords::drops_rest))]
    fn move_to_dropped(&mut self, packet: &Packet) -> Result<Row<Place>, NoMemory>
        ensures had { IfOk result (λ had. had ≡ places_had self.old.state.inner.asked packet.now) }
        ensures state { OnOk result (self.new ≡ record self.old {
          state = (coord_steps_in self.old.state (drops_rest self.old.config self.old.state.inner packet.now)).state;
        }) }
    {
        let had = places_had(self.alloc, self.asked.as_slice(), &packet.stamp)?;
        remove_had(self.alloc, &mut self.asked, &packet.stamp);
        forget_all(&mut self.count, had.as_slice());
        add_all(self.alloc, &mut self.dropped, had.as_slice())?;
        Ok(had)
    }

    /// A replica dropped a place of the current epoch for a time.
    #[tactic(auto, unfolding(eris_rules::specs::Coordinators::coord_steps_in, eris_rules::specs::EpochCoords::temp_dropped_row))]
    pub fn temp_dropped(&mut self, note: DropNote) -> Result<Row<Outgoing>, NoMemory>
        ensures { IfOk result (λ sends. (self.new, sends) ≡ after self.old
            (coord_steps_in self.old.state (temp_dropped_row self.old.config self.old.state.inner note))) }
    {
        if is_among(self.asked.as_slice(), note.place) {
            return self.note_drop(note);
        }
        Ok(Row::new(self.alloc))
    }

    #[tactic(auto, unfolding(eris_rules::specs::Coordinators::coord_steps_in, eris_rules::specs::EpochCoords::notes_drop))]
    fn note_drop(&mut self, note: DropNote) -> Result<Row<Outgoing>, NoMemory>
        ensures { IfOk result (λ sends. (self.new, sends) ≡ after self.old
            (coord_steps_in self.old.state (notes_drop self.old.config self.old.state.inner note))) }
    {
        self.count
            .note(note.place, note.shard, note.replica, note.view)?;
        self.drop_decided(note.place)
    }

    /// Drops the place for good, if it is decided.
    #[tactic(auto, unfolding(eris_rules::specs::Coordinators::coord_steps_in, eris_rules::specs::EpochCoords::drops_decided))]
    fn drop_decided(&mut self, place: Place) -> Result<Row<Outgoing>, NoMemory>
        ensures { IfOk result (λ sends. (self.new, sends) ≡ after self.old
            (coord_steps_in self.old.state (drops_decided self.old.config self.old.state.inner place))) }
    {
        if self.count.decided(place) {
            return self.drop_place(place);
        }
        Ok(Row::new(self.alloc))
    }

    #[tactic(auto, using(crate::proofs::Told::drops_place_told))]
    fn drop_place(&mut self, place: Place) -> Result<Row<Outgoing>, NoMemory>
        ensures { IfOk result (λ sends. (self.new, sends) ≡ after self.old
            (coord_steps_in self.old.state (drops_place self.old.config self.old.state.inner place))) }
    {
        remove(self.alloc, &mut self.asked, place);
        self.count.forget(place);
        add(&mut self.dropped, place)?;
        tell_all(self.alloc, &self.config, Message::Dropped { place })
    }
}
