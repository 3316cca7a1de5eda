use eris_base::{Place, ReplicaId, Row, View};
use eris_log::Part;
use eris_txn::Packet;

/// What makes a replica step within its epoch: a message of the epoch, or a timer.
#[derive(Debug, Drop)]
pub enum MemberInput {
    /// A stamped packet came.
    Txn(Packet),
    /// The coordinator asks for a place.
    Request(Place),
    /// The coordinator found a packet.
    Found(Packet),
    /// The coordinator dropped a place for good.
    Dropped(Place),
    /// Another replica shows the learner of a view what it knows.
    ViewChange {
        replica: ReplicaId,
        view: View,
        part: Part,
    },
    /// The learner of a view begins it, with what it knows.
    StartView {
        view: View,
        part: Part,
    },
    /// The learner asks how far the others are.
    SyncAsk(View),
    /// Another replica tells the learner how far it is.
    Ack {
        replica: ReplicaId,
        view: View,
        length: u32,
    },
    /// The learner tells how far the log is settled, and which places are dropped for good.
    Settled {
        view: View,
        number: u32,
        places: Row<Place>,
    },
    /// Its timer for what it lacks.
    Probe,
    /// Its timer for a learner that is silent.
    Suspect,
    /// Its timer for settling, if it is the learner.
    Sync,
}
