ghost use Rattle.std.specs.Prelude.{◌≡◌, ◌<◌, ◌≤◌, [], ℕ, length, slice_get, OnOk, IfSome, Some, true, false};
ghost use Rattle.eris_network.specs.WaitingNumbers.{with_more, without};

use eris_base::NoMemory;
use std::alloc::Global;
use std::marker::Model;

/// Which of the numbers from 0 on wait. No number below `low` does, so the lowest that waits is found without
/// a search; `low` only ever rises. Contracts see how many numbers there are, and those that wait, ascending.
#[derive(Debug, Drop)]
pub struct Waiting {
    waits: Vec<bool>,
    low: usize,
}

impl Model for Waiting {
    ghost use Rattle.eris_network.specs.WaitingNumbers.{WaitingValue, IsLow, value_of};

    ghost Value = { WaitingValue };

    ghost view = { λ w. value_of w.waits.items };

    ghost invariant = { λ w. IsLow w.waits.items w.low };
}

impl Waiting {
    /// No number. It takes no memory.
    pub fn new(alloc: Global) -> Waiting
        ensures { result ≡ record { count = 0; numbers = [] } }
    {
        Waiting {
            waits: Vec::new(alloc),
            low: 0,
        }
    }

    /// The next number waits too.
    pub fn add(&mut self) -> Result<(), NoMemory>
        ensures { OnOk result (self.new ≡ with_more self.old 1) }
    {
        self.waits.push(true)?;
        Ok(())
    }

    /// So many more numbers wait.
    pub fn add_all(&mut self, count: usize) -> Result<(), NoMemory>
        ensures { OnOk result (self.new ≡ with_more self.old count) }
    {
        for _ in 0..count {
            self.add()?;
        }
        Ok(())
    }

    /// The number waits no more.
    pub fn take(&mut self, number: usize)
        requires { number < self.old.count }
        ensures { self.new ≡ without self.old number }
    {
        self.waits[number] = false;
        self.low = next_waiting(self.waits.as_slice(), self.low);
    }

    /// The lowest number that waits, if one does.
    pub fn lowest(&self) -> Option<usize>
        ensures exact { result ≡ slice_get self.now.numbers 0 }
        ensures within { IfSome result (λ number. number < self.now.count) }
    {
        if self.low < self.waits.len() {
            Some(self.low)
        } else {
            None
        }
    }
}

/// The first number from `low` on that waits; else how many numbers there are.
fn next_waiting(waits: &[bool], low: usize) -> usize
    requires { low ≤ length waits.now }
    ensures within { result ≤ length waits.now }
    ensures between { (number : ℕ) → low ≤ number → number < result → slice_get waits.now number ≡ Some false }
    ensures at { result < length waits.now → slice_get waits.now result ≡ Some true }
{
    let mut next = low;
    while next < waits.len() && !waits[next] {
        next += 1;
    }
    next
}
