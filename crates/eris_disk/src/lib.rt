//! A disk, what a crash may leave of it, and disks in memory.
//!
//! # The rules of a crash
//!
//! Until a write is synced, a crash may leave what it might have left before the write, or any of
//! these lists with other bytes in the written range and behind the old end, whether the write was
//! answered Ok or failed. After a sync that is Ok it leaves the content alone. A sync that failed
//! promises nothing, and the content is always one of the lists that a crash may leave.
//!
//! # What its calls ask
//!
//! `read_at` asks for a range within the length. `write_at` asks for a place within the length, a
//! range within the room, and memory for one call; `sync` asks for memory for one call. `reserve`
//! makes room and memory for four calls, of at most 2^40 bytes.
#![tactic(auto)]

mod book;
mod calls;
mod disk;
mod disk_call;
mod edits;
mod memory;
mod replay;
mod sure;

pub use disk::Disk;
pub use disk_call::DiskCall;
pub use eris_stream::Failed;
pub use memory::MemDisk;
pub use sure::SureDisk;

#[cfg(test)]
mod tests {
    use super::*;
    use eris_base::Row;
    use std::test::Fail;

    #[test]
    fn a_disk_in_memory_fails_where_it_is_told_to(rt: HostRuntime) -> Result<(), Fail> {
        let alloc = rt.alloc();
        let content = Row::from_vec([5, 6].to_vec(alloc)?);
        let failing = Row::from_vec([3, 5].to_vec(alloc)?);
        let mut disk = MemDisk::new(alloc, content, failing);
        disk.reserve(4)?;
        disk.write_at(1, &[7, 8])?;
        assert_eq!(rt; disk.image(9)?.as_slice(), [5, 9, 9].as_slice());
        disk.sync()?;
        assert_eq!(rt; disk.image(9)?.as_slice(), [5, 7, 8].as_slice());
        assert!(rt; disk.write_at(2, &[1, 1]).is_err());
        assert_eq!(rt; disk.image(0)?.as_slice(), [5, 7, 0, 0].as_slice());
        let mut read = [0; 3];
        disk.read_at(0, &mut read)?;
        assert_eq!(rt; read.as_slice(), [5, 7, 8].as_slice());
        assert!(rt; disk.sync().is_err());
        assert_eq!(rt; disk.image(0)?.as_slice(), [5, 7, 0, 0].as_slice());
        assert_eq!(rt; disk.calls().len(), 4);
        Ok(())
    }

    #[test]
    fn a_sure_disk_keeps_what_it_synced(rt: HostRuntime) -> Result<(), Fail> {
        let alloc = rt.alloc();
        let mut disk = SureDisk::new(alloc, Row::new(alloc));
        disk.reserve(2)?;
        disk.write_at(0, &[3, 4])?;
        assert_eq!(rt; disk.image(1)?.as_slice(), [1, 1].as_slice());
        disk.sync()?;
        assert_eq!(rt; disk.image(1)?.as_slice(), [3, 4].as_slice());
        assert_eq!(rt; disk.len(), 2);
        let told = [
            DiskCall::Write {
                at: 0,
                count: 2,
                is_ok: true,
            },
            DiskCall::Sync { is_ok: true },
        ];
        assert_eq!(rt; disk.calls(), told.as_slice());
        Ok(())
    }
}
