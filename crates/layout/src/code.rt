// What crosses the C surface as a number: a meaning as its control byte, what became of the link, and a level.
ghost use Rattle.std.specs.Prelude.{◌≡◌};
ghost use Rattle.layout.specs.Control.{control_of, link_number, meaning_of};
ghost use Rattle.layout.specs.Layout.{mark_byte};

use frame::{Meaning, ReceiveCount, control};
use side::answer::Change;

// A byte that is not in the table becomes a meaning that every call refuses by 9 at 9's place: C has no `Option`, and takes any byte.
#[tactic(auto, unfolding(crate::specs::Control::meaning_of))]
pub fn meaning_of(control: u8) -> Meaning
    ensures { result ≡ meaning_of control }
{
    control::decode(control).unwrap_or(Meaning::Rr(ReceiveCount(255)))
}

// The control byte of a meaning, 0 for one with a count above 7: C has no `Option`.
#[tactic(auto, unfolding(crate::specs::Control::control_of))]
pub fn control_of(meaning: Meaning) -> usize
    ensures { result ≡ control_of meaning }
{
    usize::from(control::encode(meaning).unwrap_or(0))
}

pub fn link_number(link: Change) -> usize
    ensures { result ≡ link_number link }
{
    link as usize
}

pub fn level_number(level: bool) -> usize
    ensures { result ≡ mark_byte level }
{
    usize::from(level)
}
