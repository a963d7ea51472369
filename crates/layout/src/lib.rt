// What crosses to C: an end in lent bytes of a fixed layout, read from them and written back to them, and single values as numbers.
#![tactic(auto)]

ghost use Rattle.std.specs.Prelude.{ℕ, ◌≡◌, List};
ghost use Rattle.frame.specs.Answer.{refusal_in};

use frame::Refusal;

pub mod code;
pub mod master_layout;
mod side_layout;
pub mod slave_layout;

// An end that lies in lent bytes of its size. What is read back is what was written, of each: `ReadBack` and `Every` of specs/Promises.antt.
pub trait InBytes<const SIZE: usize>: Copy {
    ghost bytes_wrong: { List ℕ → ℕ };

    ghost end_at: { List ℕ → Self };

    ghost bytes_of_end: { Self → List ℕ };

    // 30 of bytes that are no end. Apart from `from_bytes` and no `TryFrom`: the two are promised apart (`Every`).
    fn bytes_wrong(bytes: &[u8; SIZE]) -> Result<(), Refusal>
        ensures { refusal_in result ≡ bytes_wrong bytes.now };

    // The end that lies in bytes that are one.
    fn from_bytes(bytes: &[u8; SIZE]) -> Self
        ensures { result ≡ end_at bytes.now };

    // The bytes of an end.
    fn to_bytes(&self) -> [u8; SIZE]
        ensures { result ≡ bytes_of_end self.now };
}
