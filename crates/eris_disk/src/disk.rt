ghost use Rattle.std.specs.Prelude.{◌≡◌, ◌+◌, ◌^◌, ◌≤◌, ℕ, List, length, take, drop, OnOk, OnErr};
ghost use Rattle.eris_disk.specs.Disks.{overwritten, OrTorn, AreSame, IsOnly, GoesOn, StandsStill};
ghost use Rattle.eris_stream.specs.Faults.{HasCause};

use eris_base::NoMemory;
use eris_stream::Failed;

/// A disk: bytes that can be read, written and synced, of which a crash may lose what isn't synced. Places
/// and lengths are at most 2^40.
pub trait Disk {
    // The bytes that a read gives.
    ghost content: { Self → List ℕ };

    // Up to which length there is room to write.
    ghost room: { Self → ℕ };

    // For how many writes and syncs there is memory.
    ghost calls: { Self → ℕ };

    // The time, which each write and each sync advances.
    ghost clock: { Self → ℕ };

    // How many calls failed. It never falls.
    ghost faults: { Self → ℕ };

    // A crash at this moment, before the next write or sync, may leave these bytes.
    ghost may_leave: { Self → List ℕ → Type 0 };

    // A crash at some moment since that time may have left these bytes.
    ghost may_have_left: { Self → ℕ → List ℕ → Type 0 };

    /// How many bytes there are. It takes no memory.
    fn len(&self) -> u64
        ensures { result ≡ length (content self.now) };

    /// Fills `buf` with the bytes from `at` on; the range is to be within the length. It takes no memory.
    ///
    /// # Errors
    ///
    /// [`Failed`] only where the count of faults rose.
    fn read_at(&mut self, at: u64, buf: &mut [u8]) -> Result<(), Failed>
        requires { at + length buf.old ≤ length (content self.old) }
        ensures bytes { OnOk result (buf.new ≡ take (length buf.old) (drop at (content self.old))) }
        ensures content { content self.new ≡ content self.old }
        ensures room { room self.new ≡ room self.old }
        ensures calls { calls self.new ≡ calls self.old }
        ensures crash { StandsStill clock may_leave may_have_left self.old self.new }
        ensures cause { HasCause (faults self.old) (faults self.new) result };

    /// Writes the bytes at `at`, over what is there and past the end. The place is to be within the length,
    /// the range within the room, and there is to be memory for a call. It takes no memory.
    ///
    /// # Errors
    ///
    /// [`Failed`] only where the count of faults rose.
    fn write_at(&mut self, at: u64, bytes: &[u8]) -> Result<(), Failed>
        requires within { at ≤ length (content self.old) }
        requires room { at + length bytes.now ≤ room self.old }
        requires calls { 1 ≤ calls self.old }
        ensures written { OnOk result (content self.new ≡ overwritten (content self.old) at bytes.now) }
        ensures left { AreSame (may_leave self.new) (OrTorn (may_leave self.old) at (length bytes.now)) }
        ensures time { GoesOn (clock self.old) (clock self.new) (may_have_left self.old) (may_have_left self.new) (may_leave self.new) }
        ensures room { room self.new ≡ room self.old }
        ensures calls { calls self.new + 1 ≡ calls self.old }
        ensures cause { HasCause (faults self.old) (faults self.new) result };

    /// After it, where it is Ok, a crash leaves the content alone. There is to be memory for a call. It takes
    /// no memory.
    ///
    /// # Errors
    ///
    /// [`Failed`] only where the count of faults rose.
    fn sync(&mut self) -> Result<(), Failed>
        requires { 1 ≤ calls self.old }
        ensures synced { OnOk result (IsOnly (content self.old) (may_leave self.new)) }
        ensures unsynced { OnErr result (AreSame (may_leave self.new) (may_leave self.old)) }
        ensures time { GoesOn (clock self.old) (clock self.new) (may_have_left self.old) (may_have_left self.new) (may_leave self.new) }
        ensures content { content self.new ≡ content self.old }
        ensures room { room self.new ≡ room self.old }
        ensures calls { calls self.new + 1 ≡ calls self.old }
        ensures cause { HasCause (faults self.old) (faults self.new) result };

    /// Makes room for a length of `bytes`, at most 2^40, and memory for four calls. The room and the memory
    /// never shrink, and nothing else changes.
    ///
    /// # Errors
    ///
    /// [`NoMemory`] where an allocation was refused.
    fn reserve(&mut self, bytes: u64) -> Result<(), NoMemory>
        requires { bytes ≤ 2 ^ 40 }
        ensures room { OnOk result (bytes ≤ room self.new) }
        ensures calls { OnOk result (4 ≤ calls self.new) }
        ensures more_room { room self.old ≤ room self.new }
        ensures more_calls { calls self.old ≤ calls self.new }
        ensures content { content self.new ≡ content self.old }
        ensures crash { StandsStill clock may_leave may_have_left self.old self.new }
        ensures faults { faults self.new ≡ faults self.old };

    // The disk is honest: its content is one of the lists that a crash may leave.
    ghost is_honest: { (disk : Self) → may_leave disk (content disk) };

    // What a crash may leave now is what it may have left since now.
    ghost left_now: { (disk : Self) (bytes : List ℕ) → may_leave disk bytes → may_have_left disk (clock disk) bytes };

    ghost only_now: { (disk : Self) (bytes : List ℕ) → may_have_left disk (clock disk) bytes → may_leave disk bytes };

    // Since an earlier time more may have been left, and never less.
    ghost earlier: { (disk : Self) (early late : ℕ) (bytes : List ℕ) → early ≤ late → may_have_left disk late bytes → may_have_left disk early bytes };
}
