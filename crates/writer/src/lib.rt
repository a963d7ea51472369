// The frame writer: flag, content with its inserted zeros, flag, into a lent buffer.
#![tactic(auto)]

ghost use Rattle.std.specs.Prelude.{◌≡◌, length};
ghost use Rattle.frame.specs.Answer.{answer};
ghost use Rattle.writer.specs.Write.{write_bytes, write_of};

use crate::content::Content;
use frame::{Meaning, Refusal, control, refusal};

mod content;
mod packed;
mod pieces;
mod stuff;

pub use content::MOST_BYTES;

// What the writer reports: the total of line bits, both flags included, and how many zeros it inserted.
#[derive(Clone, Copy, Debug, PartialEq, Eq)]
pub struct Report {
    pub bits: usize,
    pub zeros: usize,
}

// Writes a frame: 8, 9, 10, 12, 11, or its line bits packed into the lent buffer. All is tested before the first bit is laid: a refusal writes nothing.
#[tactic(auto, using(frame::proofs::LosesNothing::refused), unfolding(crate::specs::Write::write_of, crate::specs::Write::write_bytes, crate::specs::Write::write_refusal, frame::specs::Refusal::frame_refusal, frame::specs::Control::encode_of))]
pub fn write(
    address: u8,
    meaning: Meaning,
    information: &[u8],
    out: &mut [u8],
) -> Result<Report, Refusal>
    ensures answer { answer result ≡ write_of address meaning information.now (length out.old) }
    ensures bytes { out.new ≡ write_bytes address meaning information.now out.old }
{
    refusal::address_refusal(address)?;
    let control = control::encode(meaning)?;
    refusal::information_refusal(meaning, information)?;
    let content = Content::new(address, control, information);
    content.room_refusal(out.len())?;
    let bits = content.lay(out);
    let plain = 8 * (information.len() + 6);
    let zeros = bits - plain;
    Ok(Report { bits, zeros })
}
