ghost use Rattle.std.specs.Prelude.{◌≡◌, ◌<◌, ◌≤◌, ◌+◌, length, IfOk};
ghost use Rattle.eris_live_book.specs.Places.{IsPlaceIn, IsNextPlace, IsPacketAt, IsSpelledAt, sent_by};
ghost use Rattle.eris_network.specs.Limits.{packet_limit};

use crate::number::number_of;
use crate::post::Post;
use eris_base::{NoMemory, Row};
use std::alloc::Global;

/// A place in a book: a packet's number, the post that sends it, and which of the post's packets it
/// is. Behind a post's last packet stands the next post's first.
#[derive(Clone, Copy, Debug)]
pub struct Place {
    /// The packet's number.
    pub number: u32,
    /// The post's number.
    pub post: usize,
    /// How many of the post's packets stand before it.
    pub offset: usize,
}

impl Place {
    /// The place behind the packet that stands here.
    pub fn past_packet(self) -> Place
        requires number { self.number < packet_limit }
        requires offset { self.offset < packet_limit }
        ensures { result ≡ record { number = self.number + 1; post = self.post; offset = self.offset + 1 } }
    {
        Place {
            number: self.number + 1,
            post: self.post,
            offset: self.offset + 1,
        }
    }
}

/// The first place, from the one given on, at which a packet to the node stands; else the end, at
/// which there is no post.
pub fn next(posts: &[Post], node: u32, from: Place) -> Place
    requires from { IsPlaceIn posts.now from }
    requires few { length (sent_by posts.now) ≤ packet_limit }
    ensures { IsNextPlace posts.now node from result }
{
    let mut place = from;
    while place.post < posts.len() {
        match posts[place.post].sent.addressee(place.offset) {
            Some(to) => {
                if number_of(to) == node {
                    return place;
                }
                place = place.past_packet();
            }
            None => {
                place = Place {
                    number: place.number,
                    post: place.post + 1,
                    offset: 0,
                };
            }
        }
    }
    place
}

/// The bytes of the packet that stands at the place.
pub fn bytes_at(alloc: Global, posts: &[Post], place: Place) -> Result<Row<u8>, NoMemory>
    requires place { IsPlaceIn posts.now place }
    requires packet { IsPacketAt posts.now place }
    ensures { IfOk result (λ bytes. IsSpelledAt posts.now place bytes) }
{
    match posts[place.post].sent.bytes(place.offset) {
        Some(bytes) => copied(alloc, bytes),
        None => unreachable!(),
    }
}

fn copied(alloc: Global, bytes: &[u8]) -> Result<Row<u8>, NoMemory>
    ensures { IfOk result (λ row. row ≡ bytes.now) }
{
    let mut row = Row::new(alloc);
    row.append(bytes)?;
    Ok(row)
}
