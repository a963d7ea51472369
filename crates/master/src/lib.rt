// The master's end of a link: making, put, take, restart, clearing the mark, the order, and the response or silence that follows it.
#![tactic(auto)]

ghost use Rattle.std.specs.Prelude.{◌≡◌, length};
ghost use Rattle.frame.specs.Answer.{refusal_in};
ghost use Rattle.side.specs.Given.{given, making};
ghost use Rattle.master.specs.Master.{begun, blank, clear_of, limit_refusal, limit_wrong, make_of, make_refusal, master_wrong, outer_wrong, put_of, restart_of, take_bytes, take_of};

use frame::{Refusal, refusal};
use side::{Side, right};

pub mod order;
pub mod response;
pub mod silence;

#[derive(Clone, Copy, Debug, PartialEq, Eq)]
pub enum Mode {
    Disconnecting,
    Connecting,
    Linked,
}

// `tick` is that of the last order; it means something while an order waits. No `Option`: a response and silence leave the tick as it was, the layout
// for C has both fields, and reading back gives each (`ReadBack`).
#[derive(Clone, Copy)]
pub struct Master {
    pub side: Side,
    pub mode: Mode,
    pub busy: bool,
    pub waiting: bool,
    pub tick: u32,
    pub limit: u32,
    pub address: u8,
}

// Put, take, restart, clear and wrong are two lines each, like the slave's: a trait would stand beside these functions, which docs/PROMISES.md names, and be no plainer.
impl Master {
    // The greatest size of a message, and of the buffer that an order needs.
    pub const MOST: usize = Side::MOST;
    // The least and the greatest answer limit, in ticks.
    pub const LEAST_LIMIT: u32 = 1;

    pub const MOST_LIMIT: u32 = 65_535;

    // A fresh master: 8, 15.
    #[tactic(auto, unfolding(crate::specs::Master::make_of))]
    pub fn make(address: u8, limit: u32) -> Result<Master, Refusal>
        ensures { making blank result ≡ make_of address limit }
    {
        make_refusal(address, limit)?;
        Ok(Master::begun(Side::fresh(), limit, address))
    }

    // Makes the message the held one, unsent: 30, 10, 12, 13.
    #[tactic(auto, unfolding(crate::specs::Master::put_of))]
    pub fn put(&mut self, message: &[u8]) -> Result<(), Refusal>
        ensures { given result self.new ≡ put_of self.old message.now }
    {
        self.outer_wrong()?;
        self.side.put(message)
    }

    // Writes the waiting message to the lent buffer, gives its size and empties the slot: 30, 14, 11.
    #[tactic(auto, unfolding(crate::specs::Master::take_of))]
    pub fn take(&mut self, out: &mut [u8]) -> Result<usize, Refusal>
        ensures answer { given result self.new ≡ take_of self.old (length out.old) }
        ensures bytes { out.new ≡ take_bytes self.old out.old }
    {
        self.outer_wrong()?;
        self.side.take(out)
    }

    // Makes the end fresh but for its slots, its marks, its address and its limit: 30.
    #[tactic(auto, unfolding(crate::specs::Master::restart_of))]
    pub fn restart(&mut self) -> Result<(), Refusal>
        ensures { given result self.new ≡ restart_of self.old }
    {
        self.wrong()?;
        *self = Master::begun(self.side.restarted(), self.limit, self.address);
        Ok(())
    }

    // Clears the mark for messages in doubt: 30.
    #[tactic(auto, unfolding(crate::specs::Master::clear_of))]
    pub fn clear(&mut self) -> Result<(), Refusal>
        ensures { given result self.new ≡ clear_of self.old }
    {
        self.wrong()?;
        self.side = self.side.cleared();
        Ok(())
    }

    // 30 for an address or a limit against 8 or 15, or what both ends hold.
    #[tactic(auto, unfolding(crate::specs::Master::master_wrong))]
    pub fn wrong(&self) -> Result<(), Refusal>
        ensures { refusal_in result ≡ master_wrong self.now }
    {
        self.outer_wrong()?;
        self.side.wrong()
    }

    // 30 of what a master has beside its side.
    #[tactic(auto, unfolding(crate::specs::Master::outer_wrong, crate::specs::Master::limit_wrong))]
    fn outer_wrong(&self) -> Result<(), Refusal>
        ensures { refusal_in result ≡ outer_wrong self.now.address self.now.limit }
    {
        right::address_wrong(self.address)?;
        limit_refusal(self.limit).map_err(|_| Refusal::End)
    }

    fn begun(side: Side, limit: u32, address: u8) -> Master
        ensures { result ≡ begun side limit address }
    {
        Master {
            side,
            mode: Mode::Disconnecting,
            busy: false,
            waiting: false,
            tick: 0,
            limit,
            address,
        }
    }
}

#[tactic(auto, unfolding(crate::specs::Master::make_refusal))]
fn make_refusal(address: u8, limit: u32) -> Result<(), Refusal>
    ensures { refusal_in result ≡ make_refusal address limit }
{
    refusal::address_refusal(address)?;
    limit_refusal(limit)
}

// 15 of a limit.
#[tactic(auto, unfolding(crate::specs::Master::limit_refusal))]
fn limit_refusal(limit: u32) -> Result<(), Refusal>
    ensures { refusal_in result ≡ limit_refusal limit }
{
    if limit < Master::LEAST_LIMIT || Master::MOST_LIMIT < limit {
        return Err(Refusal::Limit);
    }
    Ok(())
}
