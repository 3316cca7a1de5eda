//! One message, as it is sent to one node and to several.
ghost use Rattle.std.specs.Prelude.{◌≡◌, ◌++◌, ◌∷◌, [], IfOk, OnOk};
ghost use Rattle.eris_rules.specs.Outer.{tell_each};

use eris_base::{Dup, NoMemory, Node, Row};
use eris_msg::{Message, Outgoing};
use std::alloc::Global;

/// The message to one node. Where memory is refused, it is [`NoMemory`].
pub fn tell(alloc: Global, to: Node, message: Message) -> Result<Row<Outgoing>, NoMemory>
    ensures { IfOk result (λ sends. sends ≡ record { to = to; message = message } ∷ []) }
{
    let mut sends = Row::new(alloc);
    sends.push(Outgoing { to, message })?;
    Ok(sends)
}

/// Adds the message to each of the nodes, in their order. After [`NoMemory`] it may stand there for some
/// of them.
pub fn tell_each(
    alloc: Global,
    sends: &mut Row<Outgoing>,
    nodes: &[Node],
    message: &Message,
) -> Result<(), NoMemory>
    ensures { OnOk result (sends.new ≡ sends.old ++ tell_each nodes.now message.now) }
{
    for node in nodes {
        tell_node(alloc, sends, *node, message)?;
    }
    Ok(())
}

fn tell_node(
    alloc: Global,
    sends: &mut Row<Outgoing>,
    to: Node,
    message: &Message,
) -> Result<(), NoMemory>
    ensures { OnOk result (sends.new ≡ sends.old ++ record { to = to; message = message.now } ∷ []) }
{
    let message = message.copy(alloc)?;
    sends.push(Outgoing { to, message })
}
