// The control byte both ways: from a byte to its meaning, and from a meaning to its byte.
ghost use Rattle.std.specs.Prelude.{◌≡◌, ◌+◌, ◌*◌, ◌%◌, ◌<◌};
ghost use Rattle.frame.specs.Answer.{answer, refusal_in, unless};
ghost use Rattle.frame.specs.Control.{count_refusal, counts_refusal, decode_of, encode_of};
ghost use Rattle.frame.specs.Pick.{◌then◌};

use crate::{Meaning, ReceiveCount, Refusal, SendCount};

// The greatest count.
pub const MOST_COUNT: u8 = 7;

// The meaning of a control byte, or 9. No `TryFrom`: docs/PROMISES.md names `decode` and `encode`, and one conversion would have two names.
#[tactic(auto, using(crate::proofs::Decoding::by_low_lem))]
pub fn decode(byte: u8) -> Result<Meaning, Refusal>
    ensures { answer result ≡ decode_of byte }
{
    if byte % 2 == 1 {
        return odd(byte);
    }
    let low = byte % 32;
    match low {
        0..=15 => Err(Refusal::Control),
        _ => Ok(Meaning::I(SendCount(low / 2 % 8), ReceiveCount(byte / 32))),
    }
}

// An odd byte: RR and RNR by its low bits, the rest by the whole byte.
#[tactic(auto, using(crate::proofs::Decoding::by_low_lem))]
fn odd(byte: u8) -> Result<Meaning, Refusal>
    requires { byte % 2 ≡ 1 }
    ensures { answer result ≡ decode_of byte }
{
    match byte % 32 {
        17 => Ok(Meaning::Rr(ReceiveCount(byte / 32))),
        21 => Ok(Meaning::Rnr(ReceiveCount(byte / 32))),
        _ => unnumbered(byte),
    }
}

// An odd byte that carries no count.
#[tactic(auto, unfolding(crate::specs::Control::decode_of, crate::specs::Control::known, crate::specs::Control::byte_of))]
fn unnumbered(byte: u8) -> Result<Meaning, Refusal>
    requires { (byte % 2 ≡ 1) × (byte % 32 ≡ 17 → ⊥) × (byte % 32 ≡ 21 → ⊥) }
    ensures { answer result ≡ decode_of byte }
{
    match byte {
        0x93 => Ok(Meaning::Snrm),
        0x53 => Ok(Meaning::Disc),
        0x73 => Ok(Meaning::Ua),
        0x97 => Ok(Meaning::Frmr),
        _ => Err(Refusal::Control),
    }
}

// The control byte of a meaning, or 9 where a count is above 7.
#[tactic(auto, unfolding(crate::specs::Control::encode_of, crate::specs::Control::counts_refusal, crate::specs::Control::byte_of))]
pub fn encode(meaning: Meaning) -> Result<u8, Refusal>
    ensures { answer result ≡ encode_of meaning }
{
    match meaning {
        Meaning::I(ns, nr) => i_byte(ns.0, nr.0),
        // RR and RNR: their byte with Nr zero, and Nr in the upper three bits.
        Meaning::Rr(nr) => supervisory_byte(17, nr.0),
        Meaning::Rnr(nr) => supervisory_byte(21, nr.0),
        Meaning::Snrm => Ok(0x93),
        Meaning::Disc => Ok(0x53),
        Meaning::Ua => Ok(0x73),
        Meaning::Frmr => Ok(0x97),
    }
}

fn i_byte(ns: u8, nr: u8) -> Result<u8, Refusal>
    ensures { answer result ≡ unless (count_refusal ns then count_refusal nr) (16 + 2 * ns + 32 * nr) }
{
    count_refusal(ns)?;
    count_refusal(nr)?;
    Ok(16 + 2 * ns + 32 * nr)
}

fn supervisory_byte(bare: u8, nr: u8) -> Result<u8, Refusal>
    requires { bare < 32 }
    ensures { answer result ≡ unless (count_refusal nr) (bare + 32 * nr) }
{
    count_refusal(nr)?;
    Ok(bare + 32 * nr)
}

// 9 where a count of the meaning is above 7.
#[tactic(auto, unfolding(crate::specs::Control::counts_refusal))]
pub fn counts_refusal(meaning: Meaning) -> Result<(), Refusal>
    ensures { refusal_in result ≡ counts_refusal meaning }
{
    match meaning {
        Meaning::I(ns, nr) => {
            count_refusal(ns.0)?;
            count_refusal(nr.0)
        }
        Meaning::Rr(nr) | Meaning::Rnr(nr) => count_refusal(nr.0),
        Meaning::Snrm | Meaning::Disc | Meaning::Ua | Meaning::Frmr => Ok(()),
    }
}

fn count_refusal(count: u8) -> Result<(), Refusal>
    ensures { refusal_in result ≡ count_refusal count }
{
    if MOST_COUNT < count {
        return Err(Refusal::Control);
    }
    Ok(())
}
