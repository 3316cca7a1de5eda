ghost use Rattle.std.specs.Prelude.{◌≡◌, ◌==◌, ◌≤◌, IsTrue};
ghost use Rattle.std.specs.List.{list_any};
ghost use Rattle.eris_stream.specs.Faults.{Rose};
ghost use Rattle.eris_stream.specs.MemoryStreams.{next_fails, after_next};

use eris_base::Row;
use std::marker::Model;

// The calls of a disk in memory, some of which are to fail.
#[derive(Debug, Drop)]
pub(crate) struct Calls {
    failing: Row<u32>,
    made: u64,
    faults: u64,
}

impl Model for Calls {
    ghost use Rattle.eris_stream.specs.MemoryStreams.{CallsValue};

    ghost Value = { CallsValue };

    ghost view = { λ c. record { failing = c.failing; made = c.made; faults = c.faults } };
}

impl Calls {
    // No call yet. Those whose numbers, from 1, are listed will fail.
    pub(crate) fn new(failing: Row<u32>) -> Calls
        ensures { result ≡ record { failing = failing; made = 0; faults = 0 } }
    {
        Calls {
            failing,
            made: 0,
            faults: 0,
        }
    }

    // Counts the next call, and answers whether it fails.
    #[tactic(auto, unfolding(eris_stream::specs::MemoryStreams::next_fails, eris_stream::specs::MemoryStreams::after_next))]
    pub(crate) fn fails(&mut self) -> bool
        ensures answer { result ≡ next_fails self.old }
        ensures counted { self.new ≡ after_next self.old }
        ensures later { self.old.faults ≤ self.new.faults }
        ensures rose { IsTrue result → Rose self.old.faults self.new.faults }
    {
        self.made = self.made.saturating_add(1);
        if lists(self.failing.as_slice(), self.made) {
            self.faults = self.faults.saturating_add(1);
            return true;
        }
        false
    }
}

fn lists(numbers: &[u32], number: u64) -> bool
    ensures { result ≡ list_any (λ other. other == number) numbers.now }
{
    numbers.iter().any(|other| u64::from(*other) == number)
}
