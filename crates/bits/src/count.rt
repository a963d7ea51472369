// Number 2: how many bits of a packed buffer may be stated.
ghost use Rattle.std.specs.Prelude.{◌≡◌, length};
ghost use Rattle.frame.specs.Answer.{refusal_in};
ghost use Rattle.bits.specs.Count.{bit_count_refusal};

use frame::Refusal;

// The greatest bit count that may be stated.
pub const MOST_BITS: usize = 8192;

// 2 of a stated bit count.
#[tactic(auto, unfolding(crate::specs::Count::bit_count_refusal))]
pub fn bit_count_refusal(buffer: &[u8], bits: usize) -> Result<(), Refusal>
    ensures { refusal_in result ≡ bit_count_refusal (length buffer.now) bits }
{
    if bits > MOST_BITS || buffer.len() < bits.div_ceil(8) {
        return Err(Refusal::BitCount);
    }
    Ok(())
}
