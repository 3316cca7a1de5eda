ghost use Rattle.std.specs.Prelude.{◌≡◌, [], false, true, IfOk, OnOk, OnErr, IsTrue};
ghost use Rattle.eris_coord.specs.Fitting.{InputFits};
ghost use Rattle.eris_in_place.specs.MessageRanges.{SendsFit};
ghost use Rattle.eris_log.specs.Places.{places_ascend};
ghost use Rattle.eris_msg.specs.declared.message.Message.{Message};
ghost use Rattle.eris_msg.specs.Spellings.{IsSpelling};
ghost use Rattle.eris_rules.specs.declared.coord_input.CoordInput.TheVariants as inputs;
ghost use Rattle.eris_rules.specs.CoordStates.{first_coordinator};
ghost use Rattle.eris_rules.specs.Coordinators.{coord_step};

use crate::state::State;
use eris_base::{Config, Epoch, NoMemory, Place, Row};
use eris_msg::{DecodeFault, Outgoing, decode};
use eris_rules::CoordInput;
use eris_txn::Packet;
use std::alloc::Global;
use std::marker::Model;

/// The coordinator. It asks for packets that replicas lack, and finds each or drops its place for good; it
/// closes an epoch once enough replicas of every shard told it what they know, and starts the next. Contracts
/// see it as its config and the rules' state, beside whether it is spent. Unless it is spent, all that it keeps
/// is in the messages' ranges.
#[derive(Debug, Drop)]
pub struct Coordinator {
    alloc: Global,
    state: State,
    spent: bool,
}

impl Model for Coordinator {
    ghost use Rattle.std.specs.Prelude.{◌≡◌, false};
    ghost use Rattle.eris_coord.specs.CoordinatorValues.{CoordinatorValue};
    ghost use Rattle.eris_coord.specs.Fitting.{StateFits};

    ghost Value = { CoordinatorValue };

    ghost view = { λ c. record { config = c.state.config; state = c.state.state; spent = c.spent } };

    ghost invariant = { λ c. c.spent ≡ false → StateFits c.state.state };
}

impl Coordinator {
    /// The coordinator in epoch 0, of which nothing was asked yet. It takes no memory.
    pub fn new(alloc: Global, config: Config) -> Coordinator
        ensures { result ≡ record { config = config; state = first_coordinator; spent = false } }
    {
        Coordinator {
            alloc,
            state: State::new(alloc, config),
            spent: false,
        }
    }

    /// Takes an input and answers what is sent, in order: the rules' step of the coordinator. A message that
    /// is out of place, and one for which the rules have nothing, changes nothing and sends nothing. The fields
    /// of the message are to be in their ranges; those of what is sent are, but that a log may be longer than
    /// its count in a message can tell.
    ///
    /// # Errors
    ///
    /// After [`NoMemory`] the coordinator is spent.
    pub fn step(&mut self, input: CoordInput) -> Result<Row<Outgoing>, NoMemory>
        requires unspent { self.old.spent ≡ false }
        requires in_range { InputFits input }
        ensures ok { IfOk result (λ sends. record { state = self.new.state; sends = sends }
            ≡ coord_step self.old.config self.old.state input) }
        ensures fits { IfOk result (λ sends. SendsFit sends) }
        ensures stays { OnOk result (self.new ≡ record self.old { state = self.new.state }) }
        ensures err { OnErr result (self.new.spent ≡ true) }
    {
        self.spent = true;
        let sends = self.state.step(input)?;
        self.spent = false;
        Ok(sends)
    }

    /// Takes the message that the bytes spell, as [`step`](Coordinator::step) does. Bytes that spell none
    /// change nothing and send nothing.
    ///
    /// # Errors
    ///
    /// After [`NoMemory`] the coordinator is spent.
    pub fn receive(&mut self, bytes: &[u8]) -> Result<Row<Outgoing>, NoMemory>
        requires { self.old.spent ≡ false }
        ensures message { (message : Message) → IsSpelling message bytes.now → IfOk result (λ sends.
            record { state = self.new.state; sends = sends } ≡ coord_step self.old.config self.old.state (inputs.Message message)) }
        ensures noise { ((message : Message) → IsSpelling message bytes.now → ⊥) → IfOk result (λ sends.
            (sends ≡ []) × (self.new.state ≡ self.old.state)) }
        ensures fits { IfOk result (λ sends. SendsFit sends) }
        ensures stays { OnOk result (self.new ≡ record self.old { state = self.new.state }) }
        ensures err { OnErr result (self.new.spent ≡ true) }
    {
        match decode(self.alloc, bytes) {
            Ok(message) => self.step(CoordInput::Message(message)),
            Err(DecodeFault::Bad { .. }) => Ok(Row::new(self.alloc)),
            Err(DecodeFault::NoMemory) => {
                self.spent = true;
                Err(NoMemory)
            }
        }
    }

    /// Whether an allocation was refused in a step. Neither `step` nor `receive`
    /// may be called then. It takes no memory.
    pub fn is_spent(&self) -> bool
        ensures { result ≡ self.now.spent }
    {
        self.spent
    }

    /// The epoch in which it finds and drops. It takes no memory.
    pub fn current(&self) -> Epoch
        ensures { result ≡ self.now.state.current }
    {
        self.state.current()
    }

    /// The epoch that it is on its way to; the current one where it is on its way to none. It takes no
    /// memory.
    pub fn target(&self) -> Epoch
        ensures { result ≡ self.now.state.target }
    {
        self.state.target()
    }

    /// The places that it asks for, strictly ascending. It takes no memory.
    pub fn asked(&self) -> &[Place]
        ensures exact { result.now ≡ self.now.state.inner.asked }
        ensures ascend { IsTrue (places_ascend result.now) }
    {
        self.state.asked()
    }

    /// The packets that it found in the current epoch, in the order in which it found them. It takes no
    /// memory.
    pub fn found(&self) -> &[Packet]
        ensures { result.now ≡ self.now.state.inner.found }
    {
        self.state.found()
    }

    /// The places that it dropped for good in the current epoch, strictly ascending. It takes no memory.
    pub fn dropped(&self) -> &[Place]
        ensures exact { result.now ≡ self.now.state.inner.dropped }
        ensures ascend { IsTrue (places_ascend result.now) }
    {
        self.state.dropped()
    }

    /// The packets of all closed epochs, in order of epochs. It takes no memory.
    pub fn closed(&self) -> &[Packet]
        ensures { result.now ≡ self.now.state.closed }
    {
        self.state.closed()
    }
}
