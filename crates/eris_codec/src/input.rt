ghost use Rattle.std.specs.Prelude.{◌≡◌, ◌≤◌, length, Err, IfOk, ◌∷◌};
ghost use Rattle.eris_codec.specs.Answers.{Gives};
ghost use Rattle.eris_codec.specs.Fields as f;

use crate::fault::{DecodeReason, Stop, Wrong};
use std::marker::Model;

/// The bytes that are left to read.
#[derive(Drop)]
pub struct Input<'a> {
    rest: &'a [u8],
}

impl<'a> Model for Input<'a> {
    ghost use Rattle.std.specs.Prelude.{List, ℕ};

    ghost Value = { List ℕ };

    ghost view = { λ input. input.rest.now };
}

/// Stops at the place where so many bytes are left.
pub fn bad<T>(left: usize, reason: DecodeReason) -> Result<T, Stop>
    ensures { result ≡ Err (Stop.Wrong (record { left = left; reason = reason })) }
{
    Err(Stop::Wrong(Wrong { left, reason }))
}

impl<'a> Input<'a> {
    /// All bytes are left.
    pub fn new(bytes: &'a [u8]) -> Input<'a>
        ensures { result ≡ bytes.now }
    {
        Input { rest: bytes }
    }

    /// How many bytes are left.
    pub fn left(&self) -> usize
        ensures { result ≡ length self.now }
    {
        self.rest.len()
    }

    /// The bytes that are left.
    pub fn rest(&self) -> &'a [u8]
        ensures { result.now ≡ self.now }
    {
        self.rest
    }

    /// Reads a byte.
    #[tactic(auto, unfolding(crate::specs::Fields::byte))]
    pub fn byte(&mut self) -> Result<u8, Stop>
        ensures gives { Gives (λ x. (x, self.new)) result (f.byte.read self.old) }
        ensures byte { IfOk result (λ byte. self.old ≡ byte ∷ self.new) }
    {
        match self.rest {
            [] => bad(0, DecodeReason::Short),
            [byte, rest @ ..] => {
                self.rest = rest;
                Ok(*byte)
            }
        }
    }

    /// Reads a number of four bytes, the highest first.
    #[tactic(auto, unfolding(crate::specs::Fields::word))]
    pub fn word(&mut self) -> Result<u32, Stop>
        ensures { Gives (λ x. (x, self.new)) result (f.word.read self.old) }
    {
        if self.rest.len() < 4 {
            return bad(0, DecodeReason::Short);
        }
        let (front, rest) = self.rest.split_at(4);
        self.rest = rest;
        Ok(u32::from_be_bytes([front[0], front[1], front[2], front[3]]))
    }

    /// Reads a value of eight bytes, the highest first.
    #[tactic(auto, unfolding(crate::specs::Fields::value))]
    pub fn value(&mut self) -> Result<u64, Stop>
        ensures { Gives (λ x. (x, self.new)) result (f.value.read self.old) }
    {
        if self.rest.len() < 8 {
            return bad(0, DecodeReason::Short);
        }
        let (front, rest) = self.rest.split_at(8);
        self.rest = rest;
        Ok(u64::from_be_bytes([
            front[0], front[1], front[2], front[3], front[4], front[5], front[6], front[7],
        ]))
    }

    /// A byte from `least` to `most`.
    #[tactic(auto, unfolding(crate::specs::Fields::from_to))]
    pub fn byte_in(&mut self, least: u8, most: u8) -> Result<u8, Stop>
        ensures gives { Gives (λ x. (x, self.new)) result ((f.from_to least most).read self.old) }
        ensures least { IfOk result (λ byte. least ≤ byte) }
        ensures most { IfOk result (λ byte. byte ≤ most) }
    {
        let left = self.left();
        let byte = self.byte()?;
        if byte < least || byte > most {
            return bad(left, DecodeReason::Range);
        }
        Ok(byte)
    }
}
