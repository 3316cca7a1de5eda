//! What became of a place that a replica lacks.
ghost use Rattle.std.specs.Prelude.{◌≡◌, IfOk};
ghost use Rattle.eris_rules.specs.Coordinators.{coord_steps_in};
ghost use Rattle.eris_rules.specs.EpochCoords.{find_row, finds_by, finds_lost, asks_new, asks_all, nudge_row};
ghost use Rattle.eris_coord.specs.CoordinatorValues.{after};

use crate::packets::copy_finder;
use crate::places::add;
use crate::sends::{request_all, tell_all};
use crate::state::State;
use eris_base::{NoMemory, Node, Place, ReplicaId, Row};
use eris_log::places::is_among;
use eris_msg::{Message, Outgoing};
use eris_rules::tell;
use eris_txn::Packet;

impl State {
    /// A replica lacks a place of the current epoch.
    #[tactic(auto, unfolding(eris_rules::specs::EpochCoords::find_row))]
    pub fn find(&mut self, replica: ReplicaId, place: Place) -> Result<Row<Outgoing>, NoMemory>
        ensures { IfOk result (λ sends. (self.new, sends) ≡ after self.old
            (coord_steps_in self.old.state (find_row self.old.config self.old.state.inner replica place))) }
    {
        let found = copy_finder(self.alloc, self.found.as_slice(), place)?;
        self.find_by(replica, place, found)
    }

    /// Tells the replica of the found packet, if there is one.
    #[tactic(auto, unfolding(eris_rules::specs::Coordinators::coord_steps_in, eris_rules::specs::EpochCoords::tells_found))]
    fn find_by(
        &mut self,
        replica: ReplicaId,
        place: Place,
        found: Option<Packet>,
    ) -> Result<Row<Outgoing>, NoMemory>
        ensures { IfOk result (λ sends. (self.new, sends) ≡ after self.old
            (coord_steps_in self.old.state (finds_by self.old.config self.old.state.inner replica place found))) }
    {
        match found {
            Some(packet) => tell(
                self.alloc,
                Node::Replica(place.shard, replica),
                Message::Found { packet },
            ),
            None => self.find_lost(replica, place),
        }
    }

    /// Tells the replica that the place is dropped for good, or asks for it.
    #[tactic(auto, unfolding(eris_rules::specs::Coordinators::coord_steps_in, eris_rules::specs::EpochCoords::finds_lost, eris_rules::specs::EpochCoords::tells_dropped))]
    fn find_lost(&mut self, replica: ReplicaId, place: Place) -> Result<Row<Outgoing>, NoMemory>
        ensures { IfOk result (λ sends. (self.new, sends) ≡ after self.old
            (coord_steps_in self.old.state (finds_lost self.old.config self.old.state.inner replica place))) }
    {
        if is_among(self.dropped.as_slice(), place) {
            return tell(
                self.alloc,
                Node::Replica(place.shard, replica),
                Message::Dropped { place },
            );
        }
        self.ask_new(place)
    }

    /// Asks for the place, unless it is asked for already.
    #[tactic(auto, unfolding(eris_rules::specs::Coordinators::coord_steps_in, eris_rules::specs::EpochCoords::asks_new))]
    fn ask_new(&mut self, place: Place) -> Result<Row<Outgoing>, NoMemory>
        ensures { IfOk result (λ sends. (self.new, sends) ≡ after self.old
            (coord_steps_in self.old.state (asks_new self.old.config self.old.state.inner place))) }
    {
        if is_among(self.asked.as_slice(), place) {
            return Ok(Row::new(self.alloc));
        }
        self.ask_all(place)
    }

    #[tactic(auto, using(crate::proofs::Told::asks_all_told))]
    fn ask_all(&mut self, place: Place) -> Result<Row<Outgoing>, NoMemory>
        ensures { IfOk result (λ sends. (self.new, sends) ≡ after self.old
            (coord_steps_in self.old.state (asks_all self.old.config self.old.state.inner place))) }
    {
        add(&mut self.asked, place)?;
        tell_all(self.alloc, &self.config, Message::Request { place })
    }

    /// Asks again for each asked place.
    pub fn ask_again(&mut self) -> Result<Row<Outgoing>, NoMemory>
        ensures { IfOk result (λ sends. (self.new, sends) ≡ after self.old
            (coord_steps_in self.old.state (nudge_row self.old.config self.old.state.inner))) }
    {
        request_all(self.alloc, &self.config, self.asked.as_slice())
    }
}
