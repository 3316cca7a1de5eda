//! The notes of temporary drops.
ghost use Rattle.std.specs.Prelude.{◌≡◌};
ghost use Rattle.eris_rules.specs.EpochCoords.{forget_all};

use eris_base::Place;
use eris_drop::DropCount;

/// Removes the notes of each of the places.
pub fn forget_all(count: &mut DropCount, places: &[Place])
    ensures { count.new ≡ record count.old { notes = forget_all count.old.notes places.now } }
{
    for place in places {
        count.forget(*place);
    }
}
