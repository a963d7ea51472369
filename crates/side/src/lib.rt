// What both ends of a link hold, and what both do with it: number 30's part, put, take, the count rule, synchronising, giving out.
#![tactic(auto)]

ghost use Rattle.std.specs.Prelude.{◌≡◌};
ghost use Rattle.side.specs.Side.{cleared, dropped, fresh, restarted, synchronised};

use frame::{ReceiveCount, SendCount};

pub mod answer;
pub mod right;
pub mod rule;
pub mod say;
pub mod slot;

// The held message is the first `holds` bytes of `held`, the waiting one the first `waits` bytes of `incoming`; a size of 0 means that there is none.
// Document 01 names this form ("arrays for the held and the incoming message, and their sizes"), and the layout for C has its fields.
#[derive(Clone, Copy)]
pub struct Side {
    pub ns: SendCount,
    pub nr: ReceiveCount,
    pub held: [u8; 253],
    pub holds: usize,
    pub sent: bool,
    pub incoming: [u8; 253],
    pub waits: usize,
    pub doubt: bool,
}

impl Side {
    // The greatest size of a message, which both slots have room for.
    pub const MOST: usize = 253;

    // What a fresh link has: both counts zero, both slots empty and no mark.
    pub fn fresh() -> Side
        ensures { result ≡ fresh }
    {
        Side {
            ns: SendCount(0),
            nr: ReceiveCount(0),
            held: [0u8; 253],
            holds: 0,
            sent: false,
            incoming: [0u8; 253],
            waits: 0,
            doubt: false,
        }
    }

    // What a restart keeps: all but the counts.
    #[inline(always)]
    pub fn restarted(mut self) -> Side
        ensures { result ≡ restarted self }
    {
        self.ns = SendCount(0);
        self.nr = ReceiveCount(0);
        self
    }

    // The mark for messages in doubt is cleared.
    #[inline(always)]
    pub fn cleared(mut self) -> Side
        ensures { result ≡ cleared self }
    {
        self.doubt = false;
        self
    }

    // Counts to zero; a message already sent is dropped and leaves its mark, an unsent one stays.
    #[inline(always)]
    #[tactic(auto, unfolding(crate::specs::Side::synchronised))]
    pub fn synchronised(self) -> Side
        ensures { result ≡ synchronised self }
    {
        let side = self.restarted();
        if side.sent { side.dropped() } else { side }
    }

    #[inline(always)]
    fn dropped(mut self) -> Side
        ensures { result ≡ dropped self }
    {
        self.holds = 0;
        self.sent = false;
        self.doubt = true;
        self
    }
}
