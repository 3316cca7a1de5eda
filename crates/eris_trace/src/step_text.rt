ghost use Rattle.std.specs.Prelude.{◌≡◌, ◌<◌, ◌++◌, ◌∷◌, OnOk};
ghost use Rattle.std.specs.List.{flat_map};
ghost use Rattle.eris_grammar.specs.EventText.{node_words};
ghost use Rattle.eris_grammar.specs.Fields.{hex_digit, hex_pair, hex_word};
ghost use Rattle.eris_trace.specs.ItemText.{action_words, frame_text, lost_text, packet_words, route_words, sent_text, step_text, waiting_text};
ghost use Rattle.eris_words.specs.Words.{spaced};

use crate::action::Action;
use crate::message_text::put_message;
use eris_base::{NoMemory, Node, Row};
use eris_msg::Message;
use eris_words::{append_decimal, put_number, put_word};

/// Adds a step: its number, and what it comes to.
#[tactic(auto, using(eris_words::proofs::LineLemmas::joining), unfolding(crate::specs::ItemText::step_text))]
pub fn put_step(out: &mut Row<u8>, number: u64, action: Action) -> Result<(), NoMemory>
    ensures { OnOk result (out.new ≡ out.old ++ step_text number action) }
{
    out.append(b"  step")?;
    put_number(out, number)?;
    put_action(out, action)?;
    out.push(b'\n')
}

fn put_action(out: &mut Row<u8>, action: Action) -> Result<(), NoMemory>
    ensures { OnOk result (out.new ≡ out.old ++ spaced (action_words action)) }
{
    match action {
        Action::Delivers(number, node) => {
            put_word(out, b"deliver")?;
            put_packet(out, number, node)
        }
        Action::Loses(number, node) => {
            put_word(out, b"lose")?;
            put_packet(out, number, node)
        }
        Action::Calls(node) => {
            put_word(out, b"at")?;
            put_node(out, node)
        }
        Action::Nothing => put_word(out, b"nothing"),
    }
}

// A packet, and the node that it goes to.
fn put_packet(out: &mut Row<u8>, number: u32, node: Node) -> Result<(), NoMemory>
    ensures { OnOk result (out.new ≡ out.old ++ spaced (packet_words number node)) }
{
    put_number(out, u64::from(number))?;
    put_word(out, b"to")?;
    put_node(out, node)
}

// A node, by the words of a script's noise line.
fn put_node(out: &mut Row<u8>, node: Node) -> Result<(), NoMemory>
    ensures { OnOk result (out.new ≡ out.old ++ spaced (node_words 2 node)) }
{
    match node {
        Node::Sequencer => put_word(out, b"seq"),
        Node::Coordinator => put_word(out, b"coord"),
        Node::Replica(shard, replica) => {
            put_word(out, b"rep")?;
            put_number(out, u64::from(shard.0))?;
            out.push(b'.')?;
            append_decimal(out, u64::from(replica.0))
        }
        Node::Client(client) => {
            put_word(out, b"cli")?;
            put_number(out, u64::from(client.0))
        }
    }
}

/// Adds a packet that a step sent: its number, by whom and to whom it was sent, and its message.
#[tactic(auto, using(crate::proofs::TextLemmas::told), unfolding(crate::specs::ItemText::sent_text))]
pub fn put_sent(
    out: &mut Row<u8>,
    number: u32,
    from: Node,
    to: Node,
    message: &Message,
) -> Result<(), NoMemory>
    ensures { OnOk result (out.new ≡ out.old ++ sent_text number from to message.now) }
{
    out.append(b"    sent")?;
    put_number(out, u64::from(number))?;
    put_route(out, from, to)?;
    put_message(out, message)?;
    out.push(b'\n')
}

// From one node to another.
#[tactic(auto, unfolding(crate::specs::ItemText::route_words))]
fn put_route(out: &mut Row<u8>, from: Node, to: Node) -> Result<(), NoMemory>
    ensures { OnOk result (out.new ≡ out.old ++ spaced (route_words from to)) }
{
    put_node(out, from)?;
    put_word(out, b"to")?;
    put_node(out, to)
}

/// Adds the bytes of a packet's frame.
pub fn put_frame(out: &mut Row<u8>, frame: &[u8]) -> Result<(), NoMemory>
    ensures { OnOk result (out.new ≡ out.old ++ frame_text frame.now) }
{
    out.append(b"      ")?;
    out.append(b"frame ")?;
    put_hex(out, frame)?;
    out.push(b'\n')
}

fn put_hex(out: &mut Row<u8>, bytes: &[u8]) -> Result<(), NoMemory>
    ensures { OnOk result (out.new ≡ out.old ++ hex_word bytes.now) }
{
    match bytes {
        [] => out.push(b'-'),
        _ => put_bytes(out, bytes),
    }
}

fn put_bytes(out: &mut Row<u8>, bytes: &[u8]) -> Result<(), NoMemory>
    ensures { OnOk result (out.new ≡ out.old ++ flat_map hex_pair bytes.now) }
{
    for byte in bytes {
        put_byte(out, *byte)?;
    }
    Ok(())
}

fn put_byte(out: &mut Row<u8>, byte: u8) -> Result<(), NoMemory>
    ensures { OnOk result (out.new ≡ out.old ++ hex_pair byte) }
{
    out.push(hex_digit(byte / 16))?;
    out.push(hex_digit(byte % 16))
}

fn hex_digit(value: u8) -> u8
    requires { value < 16 }
    ensures { result ≡ hex_digit value }
{
    if value < 10 {
        b'0' + value
    } else {
        b'a' - 10 + value
    }
}

/// Adds a packet that waits in the end.
#[tactic(auto, using(eris_words::proofs::LineLemmas::joining), unfolding(crate::specs::ItemText::waiting_text))]
pub fn put_waiting(out: &mut Row<u8>, number: u32, node: Node) -> Result<(), NoMemory>
    ensures { OnOk result (out.new ≡ out.old ++ waiting_text number node) }
{
    out.append(b"waits")?;
    put_packet(out, number, node)?;
    out.push(b'\n')
}

/// Adds a packet that was lost.
#[tactic(auto, using(eris_words::proofs::LineLemmas::joining), unfolding(crate::specs::ItemText::lost_text))]
pub fn put_lost(out: &mut Row<u8>, number: u32, node: Node) -> Result<(), NoMemory>
    ensures { OnOk result (out.new ≡ out.old ++ lost_text number node) }
{
    out.append(b"lost")?;
    put_packet(out, number, node)?;
    out.push(b'\n')
}
