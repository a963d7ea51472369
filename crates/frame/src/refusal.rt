// What is refused of a frame that is put together from its parts, in the order 8, 9, 10, 12.
ghost use Rattle.std.specs.Prelude.{◌≡◌};
ghost use Rattle.frame.specs.Answer.{refusal_in};
ghost use Rattle.frame.specs.Refusal.{address_refusal, frame_refusal, information_refusal, none_refusal};

use crate::{Meaning, Refusal, control, message};

// The least and the greatest address of a station.
pub const LEAST_ADDRESS: u8 = 1;

pub const MOST_ADDRESS: u8 = 250;

// 8 of an address.
#[tactic(auto, unfolding(crate::specs::Refusal::address_refusal))]
pub fn address_refusal(address: u8) -> Result<(), Refusal>
    ensures { refusal_in result ≡ address_refusal address }
{
    if address < LEAST_ADDRESS || MOST_ADDRESS < address {
        return Err(Refusal::Address);
    }
    Ok(())
}

// 9, 10 or 12 of a meaning with its information. These stay two parameters, and an address with them three, here and above: callers have
// them apart, a decoded byte and a slice of their own, and a struct of them would be made for each call and taken apart in it.
#[tactic(auto, unfolding(crate::specs::Refusal::frame_refusal))]
pub fn frame_refusal(meaning: Meaning, information: &[u8]) -> Result<(), Refusal>
    ensures { refusal_in result ≡ frame_refusal meaning information.now }
{
    control::counts_refusal(meaning)?;
    information_refusal(meaning, information)
}

// 10 or 12 of the information of a frame: only I carries information.
#[tactic(auto, unfolding(crate::specs::Refusal::information_refusal))]
pub fn information_refusal(meaning: Meaning, information: &[u8]) -> Result<(), Refusal>
    ensures { refusal_in result ≡ information_refusal meaning information.now }
{
    match meaning {
        Meaning::I(_, _) => message::message_refusal(information),
        _ => none_refusal(information),
    }
}

#[tactic(auto, unfolding(crate::specs::Refusal::none_refusal))]
fn none_refusal(information: &[u8]) -> Result<(), Refusal>
    ensures { refusal_in result ≡ none_refusal information.now }
{
    if !information.is_empty() {
        return Err(Refusal::Information);
    }
    Ok(())
}
