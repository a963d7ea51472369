// How a call from C goes on an end that lies in lent bytes, and how it is answered: a number, and values.
ghost use Rattle.std.specs.Prelude.{ℕ, ◌≡◌, List, Result};
ghost use Rattle.frame.specs.Answer.{answer};
ghost use Rattle.frame.specs.declared.number.Refusal.{Refusal};
ghost use Rattle.side.specs.Given.{Given, given};
ghost use Rattle.bitbus.specs.Call.{Returns, after, number, on_end, out_of};

use crate::values::Values;
use frame::Refusal;
use layout::InBytes;

// A call on the end that lies in bytes, and on a lent output (empty where the call has none); the end is written back unless the call is refused: 30 of bytes that are no end.
// What the call does to the end and to the output in every case, this does to those.
pub(crate) fn on_end<
    const SIZE: usize,
    E: InBytes<SIZE>,
    A: Copy,
    F: FnOnce(&mut E, &mut [u8]) -> Result<A, Refusal>,
>(bytes: &mut [u8; SIZE], out: &mut [u8], call: F) -> Result<A, Refusal>
    requires { F.IsAlwaysCallable call }
    ensures { (call_of : E → Given A E) → (laid : E → List ℕ)
        → ((r : Result A Refusal) (f : E) (left : List ℕ)
        → Returns F.FnOnce call (E.end_at bytes.old) out.old r f left
        → (given r f ≡ call_of (E.end_at bytes.old)) × (left ≡ laid (E.end_at bytes.old)))
        → (given result bytes.new ≡ on_end E.bytes_wrong E.end_at E.bytes_of_end bytes.old call_of)
        × (out.new ≡ out_of E.bytes_wrong E.end_at bytes.old out.old laid) }
{
    E::bytes_wrong(bytes)?;
    let mut end = E::from_bytes(bytes);
    let value = call(&mut end, out)?;
    *bytes = end.to_bytes();
    Ok(value)
}

// A made end is written to its bytes: the number of the making.
pub(crate) fn lay_made<const SIZE: usize, E: InBytes<SIZE>>(
    made: Result<E, Refusal>,
    bytes: &mut [u8; SIZE],
) -> u32
    ensures number { result ≡ number (answer made) }
    ensures bytes { bytes.new ≡ after E.bytes_of_end (answer made) bytes.old }
{
    let told = number(made);
    if let Ok(end) = made {
        *bytes = end.to_bytes();
    }
    told
}

// The number of an answer, and its values where nothing is refused.
pub(crate) fn finish<A: Values<N>, const N: usize>(
    done: Result<A, Refusal>,
    values: &mut [usize; N],
) -> u32
    ensures number { result ≡ number (answer done) }
    ensures values { values.new ≡ after A.numbers (answer done) values.old }
{
    let told = number(done);
    if let Ok(given) = done {
        *values = given.numbers();
    }
    told
}

// The number of an answer, as the C interface wants it: 0 where nothing is refused.
pub(crate) fn number<A: Copy>(given: Result<A, Refusal>) -> u32
    ensures { result ≡ number (answer given) }
{
    match given {
        Ok(_) => 0,
        Err(refusal) => u32::from(refusal.number()),
    }
}
