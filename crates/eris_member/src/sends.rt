//! What is sent, and to whom.
ghost use Rattle.std.specs.Prelude.{◌≡◌, ◌++◌, IfOk, OnOk};
ghost use Rattle.eris_rules.specs.Outer.{tell_each};
ghost use Rattle.eris_rules.specs.ReplicaStates.{others};
ghost use Rattle.eris_member.specs.MemberValues.{other_node};

use crate::member::EpochMember;
use eris_base::{NoMemory, Node, ReplicaId, Row};
use eris_msg::{Message, Outgoing};
use eris_rules::tell_each;

impl EpochMember {
    /// The message to the other replicas of the shard, ascending.
    pub(crate) fn tell_others(&self, message: &Message) -> Result<Row<Outgoing>, NoMemory>
        ensures { IfOk result (λ sends. sends ≡ tell_each (others self.now.me) message.now) }
    {
        let nodes = self.others()?;
        let mut sends = Row::new(self.alloc);
        tell_each(self.alloc, &mut sends, nodes.as_slice(), message)?;
        Ok(sends)
    }

    /// The other replicas of the shard, ascending.
    #[tactic(auto, using(crate::proofs::Others::other_replicas), unfolding(eris_rules::specs::Addressees::other_replicas))]
    fn others(&self) -> Result<Row<Node>, NoMemory>
        ensures { IfOk result (λ nodes. nodes ≡ others self.now.me) }
    {
        let mut nodes = Row::new(self.alloc);
        for number in 0..2 * self.config.f() + 1 {
            self.add_other(&mut nodes, number)?;
        }
        Ok(nodes)
    }

    /// Adds the replica of this number, unless it is the own one.
    fn add_other(&self, nodes: &mut Row<Node>, number: u8) -> Result<(), NoMemory>
        ensures { OnOk result (nodes.new ≡ nodes.old ++ other_node self.now.me number) }
    {
        if number == self.replica.0 {
            return Ok(());
        }
        nodes.push(Node::Replica(self.shard, ReplicaId(number)))
    }
}
