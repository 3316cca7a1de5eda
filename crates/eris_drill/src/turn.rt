ghost use Rattle.std.specs.Prelude.{◌≡◌, ◌<◌, ◌≤◌, ◌*◌};
ghost use Rattle.rand_pcg.specs.Pcg.{pcg32};
ghost use Rattle.eris_drill.specs.Draws.{after_words, draw, generator, turn_from};

use rand_core::utils::NextWord;
use rand_pcg::Lcg64Xsh32;

/// What is drawn for one turn of the day.
#[derive(Clone, Copy, Debug, PartialEq, Eq)]
pub struct Turn {
    /// What is asked, 0 to 3: at 0 two accounts are read, else one pays the other.
    pub kind: u32,
    /// The account that pays, 0 to 15.
    pub payer: u32,
    /// How far from the one behind it the account that is paid is, 0 to 14.
    pub distance: u32,
    /// What is paid, 1 to 100.
    pub amount: u64,
    /// Whether a packet is lost, 0 to 7: at 0 one is.
    pub weather: u32,
}

/// The generator of a drill's number.
#[tactic(auto, unfolding(crate::specs::Draws::generator))]
pub(crate) fn generator(number: u32) -> Lcg64Xsh32
    ensures { result ≡ generator number }
{
    Lcg64Xsh32::new(u64::from(number), 0)
}

#[tactic(auto, using(crate::proofs::Words::one_word))]
fn draw(from: &mut Lcg64Xsh32, below: u32) -> u32
    requires { 0 < below }
    ensures drawn { result ≡ draw below from.old }
    ensures fits { result < below }
    ensures left { from.new ≡ after_words 1 from.old }
{
    from.next_word() % below
}

/// Draws a turn: always five words, also where one isn't needed.
#[tactic(auto, using(crate::proofs::Words::drawing), unfolding(crate::specs::Draws::turn_from))]
pub(crate) fn next_turn(from: &mut Lcg64Xsh32) -> Turn
    ensures drawn { result ≡ turn_from from.old }
    ensures left { from.new ≡ after_words 5 from.old }
{
    let kind = draw(from, 4);
    let payer = draw(from, 16);
    let distance = draw(from, 15);
    let amount = draw(from, 100);
    let weather = draw(from, 8);
    Turn {
        kind,
        payer,
        distance,
        amount: u64::from(amount) + 1,
        weather,
    }
}
