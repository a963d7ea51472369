// The master's order: what it sends in each mode, and the wait that the order starts.
ghost use Rattle.std.specs.Prelude.{◌≡◌, length};
ghost use Rattle.frame.specs.Answer.{refusal_in};
ghost use Rattle.side.specs.Given.{given};
ghost use Rattle.master.specs.Order.{in_linked, may_inform, order_bytes, order_of, order_refusal, orders, plain, waits};

use crate::{Master, Mode};
use frame::{Line, Meaning, Refusal};
use side::{Side, slot};

// What an order that is not refused sends, and the master that waits for its response: a value, like `side::rule::Hearing` and for its reason.
#[derive(Clone, Copy)]
pub struct Ordered {
    pub line: Line,
    pub master: Master,
}

impl Master {
    // Gives the next order, with its information in the lent buffer: 30, 17, 11.
    #[tactic(auto, using(crate::proofs::Keeps::order_fits, side::proofs::Parts::laid_fits), unfolding(crate::specs::Order::order_of))]
    pub fn order(&mut self, tick: u32, out: &mut [u8]) -> Result<Line, Refusal>
        ensures answer { given result self.new ≡ order_of self.old tick (length out.old) }
        ensures bytes { out.new ≡ order_bytes self.old tick out.old }
    {
        self.order_refusal(out.len())?;
        let ordered = self.orders(tick);
        slot::lay(&self.side.held, ordered.line.size, out);
        *self = ordered.master;
        Ok(ordered.line)
    }

    #[tactic(auto, unfolding(crate::specs::Order::order_refusal))]
    fn order_refusal(&self, room: usize) -> Result<(), Refusal>
        ensures { refusal_in result ≡ order_refusal self.now room }
    {
        self.wrong()?;
        if self.waiting {
            return Err(Refusal::OrderWaits);
        }
        slot::room_refusal(room)
    }

    #[tactic(auto, unfolding(crate::specs::Order::orders))]
    fn orders(self, tick: u32) -> Ordered
        ensures { result ≡ orders self tick }
    {
        match self.mode {
            Mode::Disconnecting => self.plain(Meaning::Disc, tick),
            Mode::Connecting => self.plain(Meaning::Snrm, tick),
            Mode::Linked => self.in_linked(tick),
        }
    }

    // RNR if the incoming slot is full, else I if a message is held and the peer isn't marked busy, else RR.
    #[tactic(auto, unfolding(crate::specs::Order::in_linked))]
    fn in_linked(self, tick: u32) -> Ordered
        ensures { result ≡ in_linked self tick }
    {
        let saying = self.side.say(self.may_inform());
        Ordered {
            line: Line {
                address: self.address,
                meaning: saying.meaning,
                size: saying.size,
            },
            master: self.waits(saying.side, tick),
        }
    }

    #[tactic(auto, unfolding(crate::specs::Order::may_inform))]
    fn may_inform(&self) -> bool
        ensures { result ≡ may_inform self.now }
    {
        !self.side.full() && !self.busy
    }

    fn plain(self, meaning: Meaning, tick: u32) -> Ordered
        ensures { result ≡ plain self meaning tick }
    {
        Ordered {
            line: Line {
                address: self.address,
                meaning,
                size: 0,
            },
            master: self.waits(self.side, tick),
        }
    }

    fn waits(self, side: Side, tick: u32) -> Master
        ensures { result ≡ waits self side tick }
    {
        Master {
            side,
            waiting: true,
            tick,
            ..self
        }
    }
}
