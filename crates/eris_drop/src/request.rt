ghost use Rattle.std.specs.Prelude.{◌≡◌};
ghost use Rattle.eris_drop.specs.Requests.{is_known, answer_by, answer_request};

use eris_base::Place;
use eris_log::Part;
use eris_log::places::is_among;

/// What a replica answers when it is asked about a place.
#[derive(Clone, Copy, Debug, PartialEq, Eq)]
pub enum RequestAnswer {
    /// It holds a packet that has the place, at this number of its own shard.
    Has(u32),
    /// It holds none, and the place is found or dropped for good, so it says nothing.
    Silent,
    /// Neither: it drops the place for a time.
    Temp,
}

/// What a replica with this part answers when it is asked about the place. `Has` exactly where it holds a
/// packet that has the place, with the least number of one; else `Silent` exactly where the place is dropped
/// for good or found; else `Temp`. It takes no memory.
#[tactic(auto, unfolding(crate::specs::Requests::answer_request))]
pub fn answer_request(part: &Part, place: Place) -> RequestAnswer
    ensures { result ≡ answer_request part.now place }
{
    answer_by(part, place, part.holder_of(place))
}

/// The answer, where this is the number of the packet that has the place.
#[tactic(auto, unfolding(crate::specs::Requests::answer_by))]
fn answer_by(part: &Part, place: Place, holder: Option<u32>) -> RequestAnswer
    ensures { result ≡ answer_by part.now place holder }
{
    match holder {
        Some(number) => RequestAnswer::Has(number),
        None if is_known(part, place) => RequestAnswer::Silent,
        None => RequestAnswer::Temp,
    }
}

#[tactic(auto, unfolding(crate::specs::Requests::is_known))]
fn is_known(part: &Part, place: Place) -> bool
    ensures { result ≡ is_known part.now place }
{
    is_among(part.perm(), place) || is_among(part.fnd(), place)
}
