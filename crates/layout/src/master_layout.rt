// How a master lies in bytes.
ghost use Rattle.std.specs.Prelude.{◌≡◌};
ghost use Rattle.layout.specs.MasterLayout.{master_at, master_bytes, master_mode, master_tail, master_wrong};

use crate::side_layout::{ADDRESS_AT, MODE_AT, NS_AT};
use crate::{InBytes, side_layout};
use frame::Refusal;
use master::{Master, Mode};

pub const SIZE: usize = 538;

// The offsets of what a master holds behind what both ends hold.
const BUSY_AT: usize = 528;

const WAITING_AT: usize = 529;

const TICK_AT: usize = 530;

const LIMIT_AT: usize = 534;

impl InBytes<SIZE> for Master {
    ghost bytes_wrong = { master_wrong };

    ghost end_at = { master_at };

    ghost bytes_of_end = { master_bytes };

    #[tactic(auto, unfolding(crate::specs::MasterLayout::master_wrong))]
    fn bytes_wrong(bytes: &[u8; SIZE]) -> Result<(), Refusal> {
        if 2 < bytes[MODE_AT] || 1 < bytes[BUSY_AT] || 1 < bytes[WAITING_AT] {
            return Err(Refusal::End);
        }
        side_layout::marks_wrong(side_layout::common(bytes))
    }

    fn from_bytes(bytes: &[u8; SIZE]) -> Master {
        Master {
            side: side_layout::side_at(side_layout::common(bytes)),
            mode: master_mode(bytes[MODE_AT]),
            busy: bytes[BUSY_AT] == 1,
            waiting: bytes[WAITING_AT] == 1,
            tick: u32::from_le_bytes(side_layout::array_at(bytes, TICK_AT)),
            limit: u32::from_le_bytes(side_layout::array_at(bytes, LIMIT_AT)),
            address: bytes[ADDRESS_AT],
        }
    }

    #[tactic(auto, using(crate::proofs::Conversions::master_mode_of), unfolding(crate::specs::MasterLayout::master_bytes))]
    fn to_bytes(&self) -> [u8; SIZE] {
        let mut bytes = [0; SIZE];
        bytes[BUSY_AT..].copy_from_slice(&master_tail(self));
        bytes[NS_AT..BUSY_AT].copy_from_slice(&side_layout::side_bytes(&self.side));
        bytes[ADDRESS_AT] = self.address;
        bytes[MODE_AT] = self.mode as u8;
        bytes
    }
}

// Busy mark, wait, tick and limit.
fn master_tail(master: &Master) -> [u8; 10]
    ensures { result ≡ master_tail master.now }
{
    let mut tail = [0; 10];
    tail[0] = u8::from(master.busy);
    tail[1] = u8::from(master.waiting);
    tail[2..6].copy_from_slice(&master.tick.to_le_bytes());
    tail[6..].copy_from_slice(&master.limit.to_le_bytes());
    tail
}

// Any other byte is read as disconnecting, since `master_at` settles the end of any bytes: so no TryFrom.
fn master_mode(byte: u8) -> Mode
    ensures { result ≡ master_mode byte }
{
    match byte {
        1 => Mode::Connecting,
        2 => Mode::Linked,
        _ => Mode::Disconnecting,
    }
}
