// Number 30's part that looks at what both ends hold.
ghost use Rattle.std.specs.Prelude.{◌≡◌};
ghost use Rattle.frame.specs.Answer.{refusal_in};
ghost use Rattle.frame.specs.Pick.{◌then◌};
ghost use Rattle.side.specs.Right.{address_wrong, count_wrong, sent_wrong, side_wrong, slot_wrong};

use crate::Side;
use frame::{Meaning, ReceiveCount, Refusal, SendCount, control, message, refusal};

impl Side {
    // 30 for a count above 7, a wrong message in either slot, or a sent mark without a message.
    #[tactic(auto, unfolding(crate::specs::Right::side_wrong))]
    pub fn wrong(&self) -> Result<(), Refusal>
        ensures { refusal_in result ≡ side_wrong self.now }
    {
        counts_wrong(self.ns, self.nr)?;
        slot_wrong(&self.held, self.holds)?;
        slot_wrong(&self.incoming, self.waits)?;
        sent_wrong(self.sent, self.holds)
    }
}

// A count above 7 of either kind, as 9 finds it in a frame.
#[tactic(auto, unfolding(frame::specs::Control::counts_refusal))]
fn counts_wrong(ns: SendCount, nr: ReceiveCount) -> Result<(), Refusal>
    ensures { refusal_in result ≡ (count_wrong ns.0 then count_wrong nr.0) }
{
    control::counts_refusal(Meaning::I(ns, nr)).map_err(|_| Refusal::End)
}

// A slot is right where it is empty, or has a message of 5 to 253 bytes whose first is its size plus 2.
#[tactic(auto, unfolding(crate::specs::Right::slot_wrong))]
fn slot_wrong(slot: &[u8; 253], size: usize) -> Result<(), Refusal>
    ensures { refusal_in result ≡ slot_wrong slot.now size }
{
    if size == 0 {
        return Ok(());
    }
    if Side::MOST < size || message::message_refusal(&slot[..size]).is_err() {
        return Err(Refusal::End);
    }
    Ok(())
}

fn sent_wrong(sent: bool, holds: usize) -> Result<(), Refusal>
    ensures { refusal_in result ≡ sent_wrong sent holds }
{
    if sent && holds == 0 {
        return Err(Refusal::End);
    }
    Ok(())
}

// 30 of the address of an end.
#[tactic(auto, unfolding(crate::specs::Right::address_wrong))]
pub fn address_wrong(address: u8) -> Result<(), Refusal>
    ensures { refusal_in result ≡ address_wrong address }
{
    refusal::address_refusal(address).map_err(|_| Refusal::End)
}
