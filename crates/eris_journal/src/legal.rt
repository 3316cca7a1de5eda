ghost use Rattle.std.specs.Prelude.{◌≡◌, ℕ, List, [], ◌∷◌, ◌++◌, Option, None, Some, IfOk, OnOk, OnErr, IfErr, MatchOption, IfSome, slice_get};
ghost use Rattle.eris_journal.specs.Lists.{own};
ghost use Rattle.eris_journal.specs.Packets.{sent, pending};
ghost use Rattle.eris_journal.specs.Parts.{Refuses};

use crate::add_fault::AddFault;
use crate::fetched::Fetched;
use eris_base::NoMemory;

/// A book of entries, each of one node, and of the packets that the nodes fetched. Its entries send
/// packets, which are numbered from 0 in the order of the entries; of these each node fetches its
/// own, the least number first.
pub trait Legal: Drop {
    /// What is added.
    type Entry: Drop;

    ghost use Rattle.eris_journal.specs.declared.add_fault.AddFault.{AddFault};
    ghost use Rattle.eris_journal.specs.declared.fetched.Fetched.{Fetched};

    // The entries in order, each with its node.
    ghost entries: { Self → List (ℕ × Self.Entry) };
    // The fetched packets in order, each with its node.
    ghost fetches: { Self → List (ℕ × Fetched) };
    // The first entry that a limit refused, with its node and its cause.
    ghost refused: { Self → Option (ℕ × (Self.Entry × AddFault)) };
    // Which books are legal.
    ghost legal: { Self → Type 0 };
    // The packets that an entry sends: the node that each goes to, and its bytes.
    ghost sends: { Self.Entry → List (ℕ × List ℕ) };
    // The entry is a step of the node that has made these entries and fetched these packets.
    ghost is_step: { ℕ → List Self.Entry → List Fetched → Self.Entry → Type 0 };
    // The limit that the node's entry would pass.
    ghost limit: { Self → ℕ → Self.Entry → Option AddFault };

    /// The number of the packet that is pending for the node, if one is. It takes no memory.
    fn pending(&self, node: u32) -> Option<u32>
        ensures { result ≡ pending sends (entries self.now) (fetches self.now) node };

    /// Hands out the packet that is pending for the node, if one is, and notes it as fetched. It
    /// asks for a legal book.
    ///
    /// # Errors
    ///
    /// After [`NoMemory`] the book is as before.
    fn fetch(&mut self, node: u32) -> Result<Option<Fetched>, NoMemory>
        requires { legal self.old }
        ensures legal { legal self.new }
        ensures kept { (entries self.new ≡ entries self.old) × (refused self.new ≡ refused self.old) }
        ensures pending { IfOk result (λ r. MatchOption r (pending sends (entries self.old) (fetches self.old) node ≡ None) (λ packet. pending sends (entries self.old) (fetches self.old) node ≡ Some packet.number)) }
        ensures bytes { IfOk result (λ r. IfSome r (λ packet. slice_get (sent sends (entries self.old)) packet.number ≡ Some (node, packet.message))) }
        ensures fetched { IfOk result (λ r. MatchOption r (fetches self.new ≡ fetches self.old) (λ packet. fetches self.new ≡ fetches self.old ++ (node, packet) ∷ [])) }
        ensures err { OnErr result (fetches self.new ≡ fetches self.old) };

    /// Adds the node's entry. It asks for a legal book and a step of the node.
    ///
    /// # Errors
    ///
    /// A limit that the entry would pass; the first entry that one refuses is kept, and from then
    /// on each entry is refused for its cause. After [`NoMemory`](AddFault::NoMemory) the book is
    /// as before.
    fn add(&mut self, node: u32, entry: Self::Entry) -> Result<(), AddFault>
        requires legal { legal self.old }
        requires step { is_step node (own node (entries self.old)) (own node (fetches self.old)) entry }
        ensures legal { legal self.new }
        ensures kept { fetches self.new ≡ fetches self.old }
        ensures added { OnOk result ((entries self.new ≡ entries self.old ++ (node, entry) ∷ []) × (refused self.new ≡ refused self.old)) }
        ensures free { OnOk result ((refused self.old ≡ None) × (limit self.old node entry ≡ None)) }
        ensures err { IfErr result (λ fault. (entries self.new ≡ entries self.old) × Refuses (limit self.old node entry) (refused self.old) (refused self.new) node entry fault) };
}
