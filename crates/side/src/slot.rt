// The two slots: put fills the outgoing one, take empties the incoming one.
ghost use Rattle.std.specs.Prelude.{◌≡◌, length};
ghost use Rattle.frame.specs.Answer.{refusal_in};
ghost use Rattle.side.specs.Given.{given};
ghost use Rattle.side.specs.Slot.{full, laid_where, put_of, put_refusal, room, room_refusal, take_bytes, take_of, take_refusal};

use crate::Side;
use frame::{Refusal, message};

impl Side {
    // Makes the message the held one, unsent: 30, 10, 12, 13.
    #[tactic(auto, using(crate::proofs::Parts::put_fits), unfolding(crate::specs::Slot::put_of))]
    pub fn put(&mut self, message: &[u8]) -> Result<(), Refusal>
        ensures { given result self.new ≡ put_of self.old message.now }
    {
        self.put_refusal(message)?;
        self.held[..message.len()].copy_from_slice(message);
        self.holds = message.len();
        self.sent = false;
        Ok(())
    }

    #[tactic(auto, unfolding(crate::specs::Slot::put_refusal))]
    fn put_refusal(&self, message: &[u8]) -> Result<(), Refusal>
        ensures { refusal_in result ≡ put_refusal self.now message.now }
    {
        self.wrong()?;
        message::message_refusal(message)?;
        if self.holds != 0 {
            return Err(Refusal::StillHeld);
        }
        Ok(())
    }

    // Writes the waiting message to the lent buffer, gives its size and empties the slot: 30, 14, 11.
    #[tactic(auto, using(crate::proofs::Parts::take_fits), unfolding(crate::specs::Slot::take_of, crate::specs::Slot::laid_where))]
    pub fn take(&mut self, out: &mut [u8]) -> Result<usize, Refusal>
        ensures answer { given result self.new ≡ take_of self.old (length out.old) }
        ensures bytes { out.new ≡ take_bytes self.old out.old }
    {
        self.take_refusal(out.len())?;
        let size = self.waits;
        lay(&self.incoming, size, out);
        self.waits = 0;
        Ok(size)
    }

    #[tactic(auto, unfolding(crate::specs::Slot::take_refusal))]
    fn take_refusal(&self, room: usize) -> Result<(), Refusal>
        ensures { refusal_in result ≡ take_refusal self.now room }
    {
        self.wrong()?;
        if self.waits == 0 {
            return Err(Refusal::SlotEmpty);
        }
        if room < self.waits {
            return Err(Refusal::Output);
        }
        Ok(())
    }

    // Whether the incoming slot is full.
    #[tactic(auto, unfolding(crate::specs::Slot::full))]
    pub fn full(&self) -> bool
        ensures { result ≡ full self.now }
    {
        self.waits != 0
    }

    // Whether a message of that size finds room in the incoming slot.
    #[tactic(auto, unfolding(crate::specs::Slot::room))]
    pub fn room(&self, size: usize) -> bool
        ensures { result ≡ room self.now size }
    {
        !self.full() && size <= Side::MOST
    }
}

// Lays the first `size` bytes of a slot over the first of `out`, where both have as many; all other bytes of `out` stay.
#[tactic(auto, unfolding(crate::specs::Slot::laid_where))]
pub fn lay(slot: &[u8; 253], size: usize, out: &mut [u8])
    ensures { out.new ≡ laid_where size slot.now out.old }
{
    if size <= Side::MOST && size <= out.len() {
        out[..size].copy_from_slice(&slot[..size]);
    }
}

// 11 of the buffer lent to an order or a slave step.
pub fn room_refusal(room: usize) -> Result<(), Refusal>
    ensures { refusal_in result ≡ room_refusal room }
{
    if room < Side::MOST {
        return Err(Refusal::Output);
    }
    Ok(())
}
