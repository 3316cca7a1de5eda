ghost use Rattle.std.specs.Prelude.{◌≡◌, ◌∷◌, ◌++◌, map, OnOk};
ghost use Rattle.std.specs.List.{flat_map};
ghost use Rattle.eris_report.specs.OrderText.{outcome_word, order_words};
ghost use Rattle.eris_words.specs.Words.{line, place_word, spaced};

use eris_audit::{OrderLine, Outcome};
use eris_base::{NoMemory, Row, ShardId};
use eris_words::{put_id, put_number, put_place, put_word};

pub(crate) fn put_order(out: &mut Row<u8>, order: &[OrderLine]) -> Result<(), NoMemory>
    ensures { OnOk result (out.new ≡ out.old ++ flat_map line (map order_words order.now)) }
{
    for entry in order {
        put_order_line(out, entry)?;
    }
    Ok(())
}

#[tactic(auto, using(eris_words::proofs::LineLemmas::joining))]
fn put_order_line(out: &mut Row<u8>, entry: &OrderLine) -> Result<(), NoMemory>
    ensures { OnOk result (out.new ≡ out.old ++ line (order_words entry.now)) }
{
    out.append(b"order")?;
    put_id(out, entry.id)?;
    put_outcome(out, entry.outcome)?;
    put_number(out, u64::from(entry.stamp.epoch.0))?;
    put_places(out, entry.stamp.places())?;
    out.push(b'\n')
}

fn put_outcome(out: &mut Row<u8>, outcome: Outcome) -> Result<(), NoMemory>
    ensures { OnOk result (out.new ≡ out.old ++ 32 ∷ outcome_word outcome) }
{
    match outcome {
        Outcome::Done => put_word(out, b"done"),
        Outcome::Committed => put_word(out, b"committed"),
        Outcome::Aborted => put_word(out, b"aborted"),
        Outcome::Pending => put_word(out, b"open"),
    }
}

fn put_places(out: &mut Row<u8>, places: &[(ShardId, u32)]) -> Result<(), NoMemory>
    ensures { OnOk result (out.new ≡ out.old ++ spaced (map place_word places.now)) }
{
    for place in places {
        put_place(out, place)?;
    }
    Ok(())
}
