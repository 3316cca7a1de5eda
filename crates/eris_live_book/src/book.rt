ghost use Rattle.std.specs.Prelude.{◌≡◌, ◌<◌, [], ◌∷◌, ◌++◌, length, None, slice_get, Some, option_map, OnOk, IfErr};
ghost use Rattle.eris_journal.specs.Lists.{own};
ghost use Rattle.eris_journal.specs.declared.add_fault.AddFault.TheVariants.{NoMemory as out_of_memory};
ghost use Rattle.eris_law_live.specs.LiveBooks.{all_sent, live_limit, live_sends, refusal_of};
ghost use Rattle.eris_live_book.specs.LiveBookValues.{IsLegal, IsRangedStep};
ghost use Rattle.eris_rules.specs.Refusals.{limit_met};

use crate::fetch::Fetch;
use crate::place::{Place, bytes_at, next};
use crate::post::Post;
use eris_base::{NoMemory, Row};
use eris_event::Event;
use eris_journal::{AddFault, Fetched, Legal};
use eris_law_live::LiveEntry;
use eris_network::{Frames, SendFault, SentCounts, frame_sends};
use std::alloc::Global;
use std::marker::Model;

/// How many numbers packets may go to: those of the ten nodes, and 10 for all others.
const ADDRESSEES: u32 = 11;

/// The book of a live run. Contracts see the entries with their nodes' numbers, the fetched packets
/// with theirs, and the refused entry.
///
/// What was sent is kept once, in the frames of its post. A fetched packet is kept as its number. Of
/// each node the place is kept at which its next packet is looked for, so no turn looks through what
/// an earlier one has passed.
#[derive(Drop)]
pub struct LiveBook {
    alloc: Global,
    posts: Row<Post>,
    counts: SentCounts,
    fetched: Row<Fetch>,
    places: [Place; 11],
    refused: Option<(u32, (LiveEntry, AddFault))>,
}

impl Model for LiveBook {
    ghost use Rattle.eris_live_book.specs.LiveBookValues.{LiveBookValue, IsKeptBook, entries_of, fetches_of};
    ghost use Rattle.eris_live_book.specs.Places.{sent_by};

    ghost Value = { LiveBookValue };

    ghost view = { λ b. record { entries = entries_of b.posts; fetches = fetches_of (sent_by b.posts) b.fetched; refused = b.refused } };

    ghost invariant = { λ b. IsKeptBook b.posts b.counts b.fetched b.places };
}

impl LiveBook {
    /// The empty book. It takes no memory.
    pub fn new(alloc: Global) -> LiveBook
        ensures exact { result ≡ record { entries = []; fetches = []; refused = None } }
        ensures legal { IsLegal result }
    {
        LiveBook {
            alloc,
            posts: Row::new(alloc),
            counts: SentCounts {
                packets: 0,
                bytes: 0,
            },
            fetched: Row::new(alloc),
            places: [Place {
                number: 0,
                post: 0,
                offset: 0,
            }; 11],
            refused: None,
        }
    }

    /// How many entries it has. It takes no memory.
    pub fn len(&self) -> usize
        ensures { result ≡ length self.now.entries }
    {
        self.posts.len()
    }

    /// The event of the entry of this number, from 0. It takes no memory.
    pub fn event(&self, number: usize) -> &Event
        requires { number < length self.now.entries }
        ensures { option_map (λ x. x.1.event) (slice_get self.now.entries number) ≡ Some result.now }
    {
        &self.posts.as_slice()[number].event
    }

    /// The refused entry with its node and its cause, if there is one. It takes no memory.
    pub fn refused(&self) -> &Option<(u32, (LiveEntry, AddFault))>
        ensures { result.now ≡ self.now.refused }
    {
        &self.refused
    }
}

impl Legal for LiveBook {
    type Entry = LiveEntry;

    ghost entries = { λ b. b.entries };

    ghost fetches = { λ b. b.fetches };

    ghost refused = { λ b. b.refused };

    ghost legal = { IsLegal };

    ghost sends = { live_sends };

    ghost is_step = { IsRangedStep };

    ghost limit = { λ b node entry. live_limit b.entries entry };

    fn pending(&self, node: u32) -> Option<u32> {
        let posts = self.posts.as_slice();
        if node >= ADDRESSEES {
            return None;
        }
        let place = next(posts, node, self.places[node as usize]);
        if place.post < posts.len() {
            Some(place.number)
        } else {
            None
        }
    }

    fn fetch(&mut self, node: u32) -> Result<Option<Fetched>, NoMemory> {
        let end = self.posts.len();
        if node >= ADDRESSEES {
            return Ok(None);
        }
        let place = next(self.posts.as_slice(), node, self.places[node as usize]);
        if place.post >= end {
            self.places[node as usize] = place;
            return Ok(None);
        }
        let message = bytes_at(self.alloc, self.posts.as_slice(), place)?;
        self.fetched.push(Fetch {
            node,
            number: place.number,
        })?;
        self.places[node as usize] = place.past_packet();
        Ok(Some(Fetched {
            number: place.number,
            message,
        }))
    }

    fn add(&mut self, node: u32, entry: LiveEntry) -> Result<(), AddFault> {
        if let Some((_, (_, fault))) = &self.refused {
            return Err(*fault);
        }
        match frame_sends(self.alloc, self.counts, entry.sent.as_slice()) {
            Ok(sent) => self.post(node, entry, sent),
            Err(SendFault::Packets) => {
                self.refuse(node, entry, AddFault::Packets);
                Err(AddFault::Packets)
            }
            Err(SendFault::Bytes) => {
                self.refuse(node, entry, AddFault::Bytes);
                Err(AddFault::Bytes)
            }
            Err(SendFault::NoMemory) => Err(AddFault::NoMemory),
        }
    }
}

impl LiveBook {
    // Adds an entry for whose frames there is room.
    fn post(&mut self, node: u32, entry: LiveEntry, sent: Frames) -> Result<(), AddFault>
        requires legal { IsLegal self.old }
        requires free { self.old.refused ≡ None }
        requires step { IsRangedStep node (own node self.old.entries) (own node self.old.fetches) entry }
        requires framed { sent ≡ entry.sent }
        requires room { limit_met (all_sent self.old.entries ++ entry.sent) ≡ None }
        ensures legal { IsLegal self.new }
        ensures kept { (self.new.fetches ≡ self.old.fetches) × (self.new.refused ≡ self.old.refused) }
        ensures added { OnOk result (self.new.entries ≡ self.old.entries ++ (node, entry) ∷ []) }
        ensures err { IfErr result (λ fault. (fault ≡ out_of_memory) × (self.new.entries ≡ self.old.entries)) }
    {
        let packets = self.counts.packets + sent.len();
        let bytes = self.counts.bytes + sent.size();
        let LiveEntry { event, .. } = entry;
        match self.posts.push(Post { node, event, sent }) {
            Ok(()) => {
                self.counts = SentCounts { packets, bytes };
                Ok(())
            }
            Err(NoMemory) => Err(AddFault::NoMemory),
        }
    }

    // Keeps the entry that a limit refuses, with its cause.
    fn refuse(&mut self, node: u32, entry: LiveEntry, fault: AddFault)
        requires legal { IsLegal self.old }
        requires free { self.old.refused ≡ None }
        requires step { IsRangedStep node (own node self.old.entries) (own node self.old.fetches) entry }
        requires met { limit_met (all_sent self.old.entries ++ entry.sent) ≡ Some (refusal_of fault) }
        ensures legal { IsLegal self.new }
        ensures kept { self.new ≡ record self.old { refused = Some (node, (entry, fault)) } }
    {
        self.refused = Some((node, (entry, fault)));
    }
}
