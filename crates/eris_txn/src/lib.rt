//! What a store is asked and what it answers: keys, operations, plans, the bodies that packets carry,
//! answers, and the events of a history.
#![tactic(auto)]

mod answer;
mod body;
mod history;
mod key;
mod lock;
mod name;
mod of_key;
mod op;
mod operation;
mod packet;
mod plan;
mod txn;
mod values;

pub use answer::Answer;
pub use body::{Body, BodyFault, participants};
pub use history::HistoryEvent;
pub use key::Key;
pub use lock::{Lock, Mode};
pub use name::{Name, is_name_byte};
pub use of_key::OfKey;
pub use op::{Op, OpAnswer};
pub use operation::apply_op;
pub use packet::Packet;
pub use plan::{Guard, How, Plan, PlanFault, Setting, Write};
pub use txn::Txn;
pub use values::KeyValues;
