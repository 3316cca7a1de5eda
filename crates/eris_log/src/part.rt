ghost use Rattle.std.specs.Prelude.{◌≡◌, OnOk, OnErr, IfOk, IsSome, IsTrue, ◌↔◌};
ghost use Rattle.std.specs.Option.{option_copied};
ghost use Rattle.eris_base.specs.Places.{number_in};
ghost use Rattle.eris_log.specs.Held.{packet_at};

use crate::entry::Entry;
use crate::merge::Merge;
use crate::sorted::from_key;
use crate::{entries, held, places, walk};
use eris_base::{Dup, Epoch, NoMemory, Place, Row, Same, ShardId, Stamp};
use eris_txn::Packet;
use std::alloc::Global;
use std::marker::Model;

/// What a replica of a shard knows of one epoch: the packets that it holds, by number, and the places of
/// the epoch that were dropped for a time, found, and dropped for good. Each of the four lists strictly
/// ascends, numbers are at least 1, and nothing is ever taken out.
#[derive(Debug, Drop)]
pub struct Part {
    alloc: Global,
    epoch: Epoch,
    shard: ShardId,
    held: Row<(u32, Packet)>,
    temp: Row<Place>,
    fnd: Row<Place>,
    perm: Row<Place>,
}

impl Model for Part {
    ghost use Rattle.eris_log.specs.PartValues.{PartValue};
    ghost use Rattle.eris_log.specs.PartFacts.{IsPart};

    ghost Value = { PartValue };

    ghost view = { λ p. record { epoch = p.epoch; shard = p.shard; held = p.held; temp = p.temp; fnd = p.fnd; perm = p.perm } };

    ghost invariant = { λ p. IsPart (record { epoch = p.epoch; shard = p.shard; held = p.held; temp = p.temp; fnd = p.fnd; perm = p.perm }) };
}

impl Part {
    ghost use Rattle.eris_log.specs.PartFacts.{IsPart};
    ghost use Rattle.eris_log.specs.Entries.{own_place, entry_of, is_gap_by, IsLength, length_of, is_covered, covers, holder_of};
    ghost use Rattle.eris_log.specs.Parts.{empty_part, hold, mark_temp, mark_found, mark_dropped};

    /// The part that holds nothing. It takes no memory.
    #[tactic(auto, unfolding(crate::specs::Parts::empty_part))]
    pub fn new(alloc: Global, epoch: Epoch, shard: ShardId) -> Part
        ensures { result ≡ empty_part epoch shard }
    {
        Part {
            alloc,
            epoch,
            shard,
            held: Row::new(alloc),
            temp: Row::new(alloc),
            fnd: Row::new(alloc),
            perm: Row::new(alloc),
        }
    }

    /// The part of these lists, each of which strictly ascends: packets by numbers of at least 1, and
    /// places of the epoch. It takes no memory.
    pub fn of_lists(
        alloc: Global,
        epoch: Epoch,
        shard: ShardId,
        held: Row<(u32, Packet)>,
        temp: Row<Place>,
        fnd: Row<Place>,
        perm: Row<Place>,
    ) -> Part
        requires { IsPart (record { epoch = epoch; shard = shard; held = held; temp = temp; fnd = fnd; perm = perm }) }
        ensures { result ≡ record { epoch = epoch; shard = shard; held = held; temp = temp; fnd = fnd; perm = perm } }
    {
        Part {
            alloc,
            epoch,
            shard,
            held,
            temp,
            fnd,
            perm,
        }
    }

    /// The epoch. It takes no memory.
    pub fn epoch(&self) -> Epoch
        ensures exact { result ≡ self.now.epoch }
        ensures fits { IsPart self.now }
    {
        self.epoch
    }

    /// The shard. It takes no memory.
    pub fn shard(&self) -> ShardId
        ensures exact { result ≡ self.now.shard }
        ensures fits { IsPart self.now }
    {
        self.shard
    }

    /// The packets, by strictly ascending numbers. It takes no memory.
    pub fn held_list(&self) -> &[(u32, Packet)]
        ensures exact { result.now ≡ self.now.held }
        ensures fits { IsPart self.now }
    {
        self.held.as_slice()
    }

    /// The places that were dropped for a time, strictly ascending. It takes no memory.
    pub fn temp(&self) -> &[Place]
        ensures exact { result.now ≡ self.now.temp }
        ensures fits { IsPart self.now }
    {
        self.temp.as_slice()
    }

    /// The places that were found, strictly ascending. It takes no memory.
    pub fn fnd(&self) -> &[Place]
        ensures exact { result.now ≡ self.now.fnd }
        ensures fits { IsPart self.now }
    {
        self.fnd.as_slice()
    }

    /// The places that were dropped for good, strictly ascending. It takes no memory.
    pub fn perm(&self) -> &[Place]
        ensures exact { result.now ≡ self.now.perm }
        ensures fits { IsPart self.now }
    {
        self.perm.as_slice()
    }

    /// Adds the packet at the number that its stamp gives the shard; a number that is held already keeps
    /// its packet. The packet is of the epoch and names the shard. Numbers start at 1, so a packet with
    /// number 0 isn't added.
    ///
    /// # Errors
    ///
    /// After [`NoMemory`] the part is as before.
    #[tactic(auto, using(crate::specs::Laws::Parts::part_rules), unfolding(crate::specs::Parts::hold, crate::specs::Parts::hold_at))]
    pub fn hold(&mut self, packet: Packet) -> Result<(), NoMemory>
        requires epoch { packet.stamp.epoch ≡ self.old.epoch }
        requires names { IsSome (number_in packet.stamp.places self.old.shard) }
        ensures ok { OnOk result (self.new ≡ hold self.old packet) }
        ensures err { OnErr result (self.new ≡ self.old) }
    {
        match packet.stamp.number_of(self.shard) {
            Some(number) if number > 0 => held::add(&mut self.held, number, packet),
            _ => Ok(()),
        }
    }

    /// Adds a place of the epoch to those that were dropped for a time.
    ///
    /// # Errors
    ///
    /// After [`NoMemory`] the part is as before.
    #[tactic(auto, using(crate::specs::Laws::Parts::part_rules), unfolding(crate::specs::Parts::mark_temp))]
    pub fn mark_temp(&mut self, place: Place) -> Result<(), NoMemory>
        requires { place.epoch ≡ self.old.epoch }
        ensures ok { OnOk result (self.new ≡ mark_temp self.old place) }
        ensures err { OnErr result (self.new ≡ self.old) }
    {
        places::add(&mut self.temp, place)
    }

    /// Adds the places of a stamp of the epoch to those that were found.
    ///
    /// # Errors
    ///
    /// After [`NoMemory`] the part is as before.
    #[tactic(auto, using(crate::specs::Laws::Parts::part_rules), unfolding(crate::specs::Parts::mark_found))]
    pub fn mark_found(&mut self, stamp: &Stamp) -> Result<(), NoMemory>
        requires { stamp.now.epoch ≡ self.old.epoch }
        ensures ok { OnOk result (self.new ≡ mark_found self.old stamp.now) }
        ensures err { OnErr result (self.new ≡ self.old) }
    {
        let named = places::places_of(self.alloc, stamp)?;
        places::add_all(self.alloc, &mut self.fnd, named.as_slice())
    }

    /// Adds a place of the epoch to those that were dropped for good.
    ///
    /// # Errors
    ///
    /// After [`NoMemory`] the part is as before.
    #[tactic(auto, using(crate::specs::Laws::Parts::part_rules), unfolding(crate::specs::Parts::mark_dropped))]
    pub fn mark_dropped(&mut self, place: Place) -> Result<(), NoMemory>
        requires { place.epoch ≡ self.old.epoch }
        ensures ok { OnOk result (self.new ≡ mark_dropped self.old place) }
        ensures err { OnErr result (self.new ≡ self.old) }
    {
        places::add(&mut self.perm, place)
    }

    /// The packet that is held at the number. None exactly where none is. It takes no memory.
    pub fn held(&self, number: u32) -> Option<&Packet>
        ensures { option_copied result ≡ packet_at self.now.held number }
    {
        held::packet_at(self.held.as_slice(), number)
    }

    /// What stands at the number. It is `Dropped` exactly where the place is dropped for good, or the
    /// held packet has such a place; else `Txn` exactly where a packet is held and each place of it that
    /// is dropped for a time is found; else `Gap`. It takes no memory.
    #[tactic(auto, unfolding(crate::specs::Entries::entry_of, crate::specs::Entries::is_dropped, crate::specs::Entries::is_txn))]
    pub fn entry(&self, number: u32) -> Entry
        ensures { result ≡ entry_of self.now number }
    {
        let perm = self.perm.as_slice();
        let packet = held::packet_at(self.held.as_slice(), number);
        if places::is_among(perm, self.own_place(number)) {
            return Entry::Dropped;
        }
        if entries::is_lost(perm, packet) {
            return Entry::Dropped;
        }
        if entries::is_clear(self.temp.as_slice(), self.fnd.as_slice(), packet) {
            Entry::Txn
        } else {
            Entry::Gap
        }
    }

    /// The greatest number such that no entry from 1 to it is a `Gap`. It goes once over the packets and
    /// over the shard's places that are dropped for good, up to the first gap, and looks up the places of
    /// each packet by halves. It takes no memory.
    pub fn length(&self) -> u32
        ensures exact { result ≡ length_of self.now }
        ensures greatest { IsLength self.now result }
    {
        let mut held = self.held.as_slice();
        let mut dropped = from_key(self.perm.as_slice(), &self.own_place(1));
        let mut length = 0;
        loop {
            let packet = walk::first_packet(held, length);
            let is_dropped = walk::is_first(dropped, self.epoch, self.shard, length);
            if self.is_gap(is_dropped, packet) {
                return length;
            }
            held = walk::behind(held, packet.is_some());
            dropped = walk::behind(dropped, is_dropped);
            length += 1;
        }
    }

    /// Whether each place from 1 to the number is held or dropped for good. It looks at each of these
    /// numbers, by halves, up to the first that is neither, and takes no memory.
    #[tactic(auto, using(crate::specs::Laws::Entries::cover_rules))]
    pub fn covers(&self, number: u32) -> bool
        ensures { result ≡ covers self.now number }
    {
        for before in 0..number {
            if !self.has(before + 1) {
                return false;
            }
        }
        true
    }

    /// The least held number whose packet has the place. None exactly where there is none. It looks at
    /// the packets in order, and takes no memory.
    #[tactic(auto, unfolding(crate::specs::Entries::holder_of))]
    pub fn holder_of(&self, place: Place) -> Option<u32>
        ensures { result ≡ holder_of self.now place }
    {
        entries::holder_of(self.held.as_slice(), place)
    }

    /// Whether the number is held or its place dropped for good.
    #[tactic(auto, unfolding(crate::specs::Entries::is_covered))]
    fn has(&self, number: u32) -> bool
        ensures { result ≡ is_covered self.now number }
    {
        held::packet_at(self.held.as_slice(), number).is_some()
            || places::is_among(self.perm.as_slice(), self.own_place(number))
    }

    /// Whether an entry is a gap whose place is dropped for good or not, and where this packet is held.
    fn is_gap(&self, is_dropped: bool, packet: Option<&Packet>) -> bool
        ensures { result ≡ is_gap_by self.now is_dropped (option_copied packet.entry) }
    {
        !is_dropped
            && !entries::is_lost(self.perm.as_slice(), packet)
            && !entries::is_clear(self.temp.as_slice(), self.fnd.as_slice(), packet)
    }

    fn own_place(&self, number: u32) -> Place
        ensures { result ≡ own_place self.now number }
    {
        Place {
            epoch: self.epoch,
            shard: self.shard,
            number,
        }
    }
}

impl Merge for Part {
    ghost use Rattle.std.specs.Prelude.{◌≡◌, OnOk, OnErr};
    ghost use Rattle.eris_log.specs.Growth.{OfOneShard, Agree};
    ghost use Rattle.eris_log.specs.PartFacts.{IsPart};
    ghost use Rattle.eris_log.specs.Parts.{merge, IsUnion};
    ghost use Rattle.eris_log.specs.Laws.Parts.{merge-assoc, merge-idem, merge-comm, merges_again};

    ghost merged = { merge };

    ghost is_valid = { IsPart };

    ghost can_merge = { OfOneShard };

    ghost agree = { Agree };

    /// Makes the part the union of the two, which are of one epoch and shard. A number that both hold
    /// keeps the packet of this one.
    ///
    /// # Errors
    ///
    /// After [`NoMemory`] the part is as before.
    #[tactic(auto, using(crate::specs::Laws::Parts::part_rules), unfolding(crate::specs::Parts::merge))]
    fn merge(&mut self, other: &Part) -> Result<(), NoMemory>
        requires { OfOneShard self.old other.now }
        ensures ok { OnOk result (self.new ≡ merge self.old other.now) }
        ensures union { OnOk result (IsUnion self.old other.now self.new) }
        ensures err { OnErr result (self.new ≡ self.old) }
        ensures valid { IsPart self.old × IsPart other.now × IsPart self.new }
    {
        let held = held::all_of(self.alloc, self.held.as_slice(), other.held.as_slice())?;
        let temp = places::all_of(self.alloc, self.temp.as_slice(), other.temp.as_slice())?;
        let fnd = places::all_of(self.alloc, self.fnd.as_slice(), other.fnd.as_slice())?;
        let perm = places::all_of(self.alloc, self.perm.as_slice(), other.perm.as_slice())?;
        self.held = held;
        self.temp = temp;
        self.fnd = fnd;
        self.perm = perm;
        Ok(())
    }

    ghost associative = { λ a b c valid _ _. merge-assoc a b c valid };

    ghost idempotent = { merge-idem };

    ghost commutative = { merge-comm };

    ghost merges_again = { merges_again };
}

impl Dup for Part {
    fn copy(&self, alloc: Global) -> Result<Part, NoMemory> {
        Ok(Part {
            alloc,
            epoch: self.epoch,
            shard: self.shard,
            held: self.held.copy(alloc)?,
            temp: self.temp.copy(alloc)?,
            fnd: self.fnd.copy(alloc)?,
            perm: self.perm.copy(alloc)?,
        })
    }
}

impl Same for Part {
    fn same(&self, other: &Part) -> bool {
        self.epoch == other.epoch
            && self.shard == other.shard
            && self.held.same(&other.held)
            && self.temp.same(&other.temp)
            && self.fnd.same(&other.fnd)
            && self.perm.same(&other.perm)
    }
}
