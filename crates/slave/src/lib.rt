// The slave's end of a link: making, put, take, restart, clearing the mark, and the step that answers an order.
#![tactic(auto)]

ghost use Rattle.std.specs.Prelude.{◌≡◌, length};
ghost use Rattle.frame.specs.Answer.{refusal_in};
ghost use Rattle.side.specs.Given.{given, making};
ghost use Rattle.slave.specs.Slave.{begun, blank, clear_of, make_of, put_of, restart_of, slave_wrong, take_bytes, take_of};

use frame::{Refusal, refusal};
use side::{Side, right};

pub mod step;

#[derive(Clone, Copy, Debug, PartialEq, Eq)]
pub enum Mode {
    Ndm,
    Nrm,
}

#[derive(Clone, Copy)]
pub struct Slave {
    pub side: Side,
    pub mode: Mode,
    pub address: u8,
}

// Put, take, restart, clear and wrong are the master's too; its file says why they stay two.
impl Slave {
    // The greatest size of a message, and of the buffer that a step needs.
    pub const MOST: usize = Side::MOST;

    // A fresh slave: 8.
    #[tactic(auto, unfolding(crate::specs::Slave::make_of))]
    pub fn make(address: u8) -> Result<Slave, Refusal>
        ensures { making blank result ≡ make_of address }
    {
        refusal::address_refusal(address)?;
        Ok(Slave::begun(Side::fresh(), address))
    }

    // Makes the message the held one, unsent: 30, 10, 12, 13.
    #[tactic(auto, unfolding(crate::specs::Slave::put_of))]
    pub fn put(&mut self, message: &[u8]) -> Result<(), Refusal>
        ensures { given result self.new ≡ put_of self.old message.now }
    {
        right::address_wrong(self.address)?;
        self.side.put(message)
    }

    // Writes the waiting message to the lent buffer, gives its size and empties the slot: 30, 14, 11.
    #[tactic(auto, unfolding(crate::specs::Slave::take_of))]
    pub fn take(&mut self, out: &mut [u8]) -> Result<usize, Refusal>
        ensures answer { given result self.new ≡ take_of self.old (length out.old) }
        ensures bytes { out.new ≡ take_bytes self.old out.old }
    {
        right::address_wrong(self.address)?;
        self.side.take(out)
    }

    // Makes the end fresh but for its slots, its marks and its address: 30.
    #[tactic(auto, unfolding(crate::specs::Slave::restart_of))]
    pub fn restart(&mut self) -> Result<(), Refusal>
        ensures { given result self.new ≡ restart_of self.old }
    {
        self.wrong()?;
        *self = Slave::begun(self.side.restarted(), self.address);
        Ok(())
    }

    // Clears the mark for messages in doubt: 30.
    #[tactic(auto, unfolding(crate::specs::Slave::clear_of))]
    pub fn clear(&mut self) -> Result<(), Refusal>
        ensures { given result self.new ≡ clear_of self.old }
    {
        self.wrong()?;
        self.side = self.side.cleared();
        Ok(())
    }

    // 30 for an address against 8, or what both ends hold.
    #[tactic(auto, unfolding(crate::specs::Slave::slave_wrong))]
    pub fn wrong(&self) -> Result<(), Refusal>
        ensures { refusal_in result ≡ slave_wrong self.now }
    {
        right::address_wrong(self.address)?;
        self.side.wrong()
    }

    fn begun(side: Side, address: u8) -> Slave
        ensures { result ≡ begun side address }
    {
        Slave {
            side,
            mode: Mode::Ndm,
            address,
        }
    }
}
