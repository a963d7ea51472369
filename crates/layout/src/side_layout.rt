// How what both ends hold lies in bytes. The table of offsets stands in specs/Layout.antt and in the header.
ghost use Rattle.std.specs.Prelude.{◌≡◌, ◌+◌, ◌≤◌, drop, length, take};
ghost use Rattle.frame.specs.Answer.{refusal_in};
ghost use Rattle.layout.specs.Layout.{marks_wrong, number_at, side_at, side_bytes, side_head};

use crate::{master_layout, slave_layout};
use frame::{ReceiveCount, Refusal, SendCount};
use side::Side;

pub(crate) const MODE_AT: usize = 0;

pub(crate) const ADDRESS_AT: usize = 1;

// From here on lies what both ends hold.
pub(crate) const NS_AT: usize = 2;

const NR_AT: usize = 3;

const SENT_AT: usize = 4;

const DOUBT_AT: usize = 5;

const HOLDS_AT: usize = 6;

const WAITS_AT: usize = 14;

const HELD_AT: usize = 22;

const INCOMING_AT: usize = 275;

// The bytes that both ends have, of a master's.
pub(crate) fn common(bytes: &[u8; master_layout::SIZE]) -> &[u8; slave_layout::SIZE]
    ensures marks { marks_wrong result.now ≡ marks_wrong bytes.now }
    ensures side { side_at result.now ≡ side_at bytes.now }
{
    bytes.first_chunk().unwrap()
}

// 30 of a sent or a doubt mark outside its values.
#[tactic(auto, unfolding(crate::specs::Layout::marks_wrong))]
pub(crate) fn marks_wrong(bytes: &[u8; slave_layout::SIZE]) -> Result<(), Refusal>
    ensures { refusal_in result ≡ marks_wrong bytes.now }
{
    if 1 < bytes[SENT_AT] || 1 < bytes[DOUBT_AT] {
        return Err(Refusal::End);
    }
    Ok(())
}

// What both ends hold, out of the bytes that both have.
#[tactic(auto, unfolding(crate::specs::Layout::side_at))]
pub(crate) fn side_at(bytes: &[u8; slave_layout::SIZE]) -> Side
    ensures { result ≡ side_at bytes.now }
{
    Side {
        ns: SendCount(bytes[NS_AT]),
        nr: ReceiveCount(bytes[NR_AT]),
        held: array_at(bytes, HELD_AT),
        holds: size_at(bytes, HOLDS_AT),
        sent: bytes[SENT_AT] == 1,
        incoming: array_at(bytes, INCOMING_AT),
        waits: size_at(bytes, WAITS_AT),
        doubt: bytes[DOUBT_AT] == 1,
    }
}

// A size, in eight bytes.
#[tactic(auto, using(crate::proofs::Conversions::eight_at))]
fn size_at(bytes: &[u8], at: usize) -> usize
    requires { at + 8 ≤ length bytes.now }
    ensures { result ≡ number_at 8 bytes.now at }
{
    usize::from_le_bytes(array_at(bytes, at))
}

// The N bytes from a place on.
pub(crate) fn array_at<const N: usize>(bytes: &[u8], at: usize) -> [u8; N]
    requires { at + N ≤ length bytes.now }
    ensures { result ≡ take N (drop at bytes.now) }
{
    *bytes[at..].first_chunk().unwrap()
}

// What both ends hold as bytes, from Ns on.
pub(crate) fn side_bytes(side: &Side) -> [u8; 526]
    ensures { result ≡ side_bytes side.now }
{
    let mut bytes = [0; 526];
    bytes[INCOMING_AT - NS_AT..].copy_from_slice(&side.incoming);
    bytes[HELD_AT - NS_AT..INCOMING_AT - NS_AT].copy_from_slice(&side.held);
    bytes[..HELD_AT - NS_AT].copy_from_slice(&side_head(side));
    bytes
}

// Counts, marks and sizes.
fn side_head(side: &Side) -> [u8; 20]
    ensures { result ≡ side_head side.now }
{
    let mut head = [0; 20];
    head[0] = side.ns.0;
    head[1] = side.nr.0;
    head[2] = u8::from(side.sent);
    head[3] = u8::from(side.doubt);
    head[4..12].copy_from_slice(&side.holds.to_le_bytes());
    head[12..].copy_from_slice(&side.waits.to_le_bytes());
    head
}
