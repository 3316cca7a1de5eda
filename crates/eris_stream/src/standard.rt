ghost use Rattle.std.specs.Prelude.{◌≡◌, ◌-◌, ◌^◌, ◌<◌, ◌≤◌, None, length, IfOk, IsOk, OnOk, MatchResult};
ghost use Rattle.std.specs.Io.{ReadsAtMost};
ghost use Rattle.eris_stream.specs.Faults.{one_more, HasCause};

use crate::stream::{Failed, Sink, Source};
use eris_base::NoMemory;
use std::io::{Read, Write};
use std::marker::Model;

/// A source over any of std's readers. Of the bytes it tells nothing, and contracts see it as its count
/// of faults, which rises at each error of the reader and stands still at the end of its type.
#[derive(Debug, Drop)]
pub struct StdSource<R> {
    reader: R,
    faults: u64,
}

impl<R> Model for StdSource<R> {
    ghost use Rattle.std.specs.Prelude.{ℕ};

    ghost Value = { ℕ };

    ghost view = { λ s. s.faults };
}

impl<R: Read> StdSource<R> {
    /// A source over this reader. It takes no memory.
    pub fn new(reader: R) -> StdSource<R>
        ensures { result ≡ 0 }
    {
        StdSource { reader, faults: 0 }
    }
}

impl<R: Read> Source for StdSource<R> {
    ghost left = { λ _. None };

    ghost faults = { λ count. count };

    fn read(&mut self, buf: &mut [u8]) -> Result<usize, Failed>
        ensures bound { ReadsAtMost result buf.new }
        ensures cause { HasCause self.old self.new result }
        ensures counted { MatchResult result (λ _. self.new ≡ self.old) (λ _. self.new ≡ one_more self.old) }
    {
        match self.reader.read(buf) {
            Ok(count) => Ok(count),
            Err(_) => {
                self.faults = self.faults.saturating_add(1);
                Err(Failed)
            }
        }
    }
}

/// A sink over any of std's writers. Of the bytes it tells nothing, and contracts see it as its count of
/// faults. The count rises at each error of the writer, and where the writer takes nothing of a piece that
/// isn't empty; it stands still at the end of its type. The sink never flushes the writer.
#[derive(Debug, Drop)]
pub struct StdSink<W> {
    writer: W,
    faults: u64,
}

impl<W> Model for StdSink<W> {
    ghost use Rattle.std.specs.Prelude.{ℕ};

    ghost Value = { ℕ };

    ghost view = { λ s. s.faults };
}

impl<W: Write> StdSink<W> {
    /// A sink over this writer. It takes no memory.
    pub fn new(writer: W) -> StdSink<W>
        ensures { result ≡ 0 }
    {
        StdSink { writer, faults: 0 }
    }
}

impl<W: Write> Sink for StdSink<W> {
    ghost taken = { λ _. None };

    ghost faults = { λ count. count };

    // The writer makes its own room.
    ghost spare = { λ _. 2 ^ 64 - 1 };

    fn reserve(&mut self, more: usize) -> Result<(), NoMemory>
        ensures room { OnOk result (more ≤ 2 ^ 64 - 1) }
        ensures always { IsOk result }
        ensures stays { self.new ≡ self.old }
    {
        let _ = more;
        Ok(())
    }

    fn write(&mut self, bytes: &[u8]) -> Result<usize, Failed>
        ensures bound { IfOk result (λ n. n ≤ length bytes.now) }
        ensures progress { IfOk result (λ n. 0 < length bytes.now → 0 < n) }
        ensures cause { HasCause self.old self.new result }
        ensures counted { MatchResult result (λ _. self.new ≡ self.old) (λ _. self.new ≡ one_more self.old) }
    {
        match self.writer.write(bytes) {
            Ok(count) if count > 0 || bytes.is_empty() => Ok(count),
            _ => {
                self.faults = self.faults.saturating_add(1);
                Err(Failed)
            }
        }
    }
}
