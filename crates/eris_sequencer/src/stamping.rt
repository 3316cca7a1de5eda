use crate::sequencer::Sequencer;
use eris_base::Row;
use eris_txn::Packet;

/// The sequencer of one epoch, and the packets that it stamped, in that order.
#[derive(Debug, Drop)]
pub struct Stamping {
    pub sequencer: Sequencer,
    pub stamped: Row<Packet>,
}
