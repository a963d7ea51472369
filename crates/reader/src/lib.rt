// The frame reader: the first content that counts, without its inserted zeros, judged as a frame.
#![tactic(auto)]

ghost use Rattle.std.specs.Prelude.{◌≡◌, ◌*◌, ◌≤◌, length};
ghost use Rattle.frame.specs.Answer.{answer, refusal_in};
ghost use Rattle.bits.specs.Bits.{bits_of};
ghost use Rattle.reader.specs.Flags.{part};
ghost use Rattle.reader.specs.Read.{check_refusal, content_answer, fitting, frame_answer, out_after, read_of, removal_refusal, told};

use bits::{check, count};
use frame::{Line, Refusal, control, message, refusal};
use std::ops::Range;

mod bit;
mod extract;
mod seek;

// The bytes that the greatest bit count needs.
const MOST_BYTES: usize = count::MOST_BITS / 8;

// The least and the greatest number of bytes of a content.
pub const LEAST_CONTENT: usize = 4;

pub const MOST_CONTENT: usize = 257;

// Reads a frame out of the stated bits of a buffer, and writes its information: 2, 1, 3, 4, 5, 6, 7, 8, 9, 10, 12, 11.
#[tactic(auto, using(frame::proofs::LosesNothing::refused, crate::proofs::Windows::part_within, bits::proofs::Counting::count_passed), unfolding(crate::specs::Read::read_of))]
pub fn read(buffer: &[u8], bits: usize, out: &mut [u8]) -> Result<Line, Refusal>
    ensures answer { answer result ≡ told (read_of buffer.now bits (length out.old)) }
    ensures information { out.new ≡ out_after (read_of buffer.now bits (length out.old)) out.old }
{
    count::bit_count_refusal(buffer, bits)?;
    match seek::find(buffer, bits) {
        None => Err(Refusal::NoContent),
        Some(place) => content(buffer, place, out),
    }
}

// The content at its place: 3 to 6, then its bytes.
#[tactic(auto, using(frame::proofs::LosesNothing::refused, crate::proofs::Judging::removal_passed), unfolding(crate::specs::Read::content_answer, crate::specs::Read::bytes_in))]
fn content(buffer: &[u8], place: Range<usize>, out: &mut [u8]) -> Result<Line, Refusal>
    requires { (place.start ≤ place.end) × (place.end ≤ 8 * length buffer.now) × (place.end ≤ 8192) }
    ensures answer { answer result ≡ told (fitting (length out.old) (content_answer (part place.start place.end (bits_of buffer.now)))) }
    ensures information { out.new ≡ out_after (fitting (length out.old) (content_answer (part place.start place.end (bits_of buffer.now)))) out.old }
{
    let mut bytes = [0; MOST_BYTES];
    let kept = extract::extract(buffer, place, &mut bytes);
    removal_refusal(kept.bits, kept.run)?;
    whole(&bytes[..kept.bits / 8], out)
}

// 3, 4, 5 or 6 of the bits that were kept and the run of ones at their end.
#[tactic(auto, unfolding(crate::specs::Read::removal_refusal))]
fn removal_refusal(bits: usize, run: u8) -> Result<(), Refusal>
    ensures { refusal_in result ≡ removal_refusal bits run }
{
    if run == 5 {
        return Err(Refusal::FiveOnesAtEnd);
    }
    if bits % 8 != 0 {
        return Err(Refusal::NotWholeBytes);
    }
    let size = bits / 8;
    if size < LEAST_CONTENT {
        return Err(Refusal::TooFewBytes);
    }
    if MOST_CONTENT < size {
        return Err(Refusal::TooManyBytes);
    }
    Ok(())
}

// Address, control, information and check word: 7, 8, 9, 10, 12, then 11; the information is written where none of them refuses.
#[tactic(auto, using(frame::proofs::LosesNothing::refused), unfolding(crate::specs::Read::frame_answer))]
fn whole(frame: &[u8], out: &mut [u8]) -> Result<Line, Refusal>
    requires { 4 ≤ length frame.now }
    ensures answer { answer result ≡ told (fitting (length out.old) (frame_answer frame.now)) }
    ensures information { out.new ≡ out_after (fitting (length out.old) (frame_answer frame.now)) out.old }
{
    check_refusal(frame)?;
    let address = frame[0];
    refusal::address_refusal(address)?;
    let meaning = control::decode(frame[1])?;
    let information = message::information(frame);
    refusal::information_refusal(meaning, information)?;
    let size = information.len();
    if out.len() < size {
        return Err(Refusal::Output);
    }
    out[..size].copy_from_slice(information);
    Ok(Line {
        address,
        meaning,
        size,
    })
}

// 7 where the last two bytes are not the check word of those before them.
#[tactic(auto, using(crate::proofs::Judging::check_decides))]
fn check_refusal(frame: &[u8]) -> Result<(), Refusal>
    requires { 4 ≤ length frame.now }
    ensures { refusal_in result ≡ check_refusal frame.now }
{
    let (content, word) = frame.split_at(frame.len() - 2);
    if check::check_word(content) != u16::from_le_bytes([word[0], word[1]]) {
        return Err(Refusal::CheckWord);
    }
    Ok(())
}
