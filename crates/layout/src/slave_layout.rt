// How a slave lies in bytes.
ghost use Rattle.std.specs.Prelude.{◌≡◌};
ghost use Rattle.layout.specs.SlaveLayout.{slave_at, slave_bytes, slave_mode, slave_wrong};

use crate::side_layout::{ADDRESS_AT, MODE_AT, NS_AT};
use crate::{InBytes, side_layout};
use frame::Refusal;
use slave::{Mode, Slave};

pub const SIZE: usize = 528;

impl InBytes<SIZE> for Slave {
    ghost bytes_wrong = { slave_wrong };

    ghost end_at = { slave_at };

    ghost bytes_of_end = { slave_bytes };

    #[tactic(auto, unfolding(crate::specs::SlaveLayout::slave_wrong))]
    fn bytes_wrong(bytes: &[u8; SIZE]) -> Result<(), Refusal> {
        if 1 < bytes[MODE_AT] {
            return Err(Refusal::End);
        }
        side_layout::marks_wrong(bytes)
    }

    #[tactic(auto, unfolding(crate::specs::SlaveLayout::slave_at))]
    fn from_bytes(bytes: &[u8; SIZE]) -> Slave {
        Slave {
            side: side_layout::side_at(bytes),
            mode: slave_mode(bytes[MODE_AT]),
            address: bytes[ADDRESS_AT],
        }
    }

    #[tactic(auto, using(crate::proofs::Conversions::slave_mode_of), unfolding(crate::specs::SlaveLayout::slave_bytes))]
    fn to_bytes(&self) -> [u8; SIZE] {
        let mut bytes = [0; SIZE];
        bytes[NS_AT..].copy_from_slice(&side_layout::side_bytes(&self.side));
        bytes[ADDRESS_AT] = self.address;
        bytes[MODE_AT] = self.mode as u8;
        bytes
    }
}

// Any other byte is read as NDM, since `slave_at` settles the end of any bytes: so no TryFrom.
fn slave_mode(byte: u8) -> Mode
    ensures { result ≡ slave_mode byte }
{
    match byte {
        1 => Mode::Nrm,
        _ => Mode::Ndm,
    }
}
