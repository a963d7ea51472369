// One record of a capture: what it is and where the next begins, or the refusal.
ghost use Rattle.std.specs.Prelude.{◌≡◌, ◌≤◌, length, IfOk};
ghost use Rattle.frame.specs.Answer.{answer, refusal_in};
ghost use Rattle.capture.specs.Record.{Names, form_refusal, found, frame_in, kind_number, kind_of, kind_refusal, length_of, record_at};

use frame::{Meaning, Refusal, control, refusal};

// The bytes before the body: length and kind.
pub const HEAD: usize = 4;

// The least and the greatest body of an order or a response.
pub const LEAST_BODY: usize = 2;

pub const MOST_BODY: usize = 255;

// What an order or a response carries; size is that of its information. Not `frame::Line`: a size in a byte is what bounds a line of the listing.
#[derive(Clone, Copy, Debug, PartialEq, Eq)]
pub struct Frame {
    pub address: u8,
    pub meaning: Meaning,
    pub size: u8,
}

// What a record tells of.
#[derive(Clone, Copy, Debug, PartialEq, Eq)]
pub enum Entry {
    Order(Frame),
    Response(Frame),
    Silence,
}

// A record, and the place where the next begins.
#[derive(Clone, Copy, Debug, PartialEq, Eq)]
pub struct Record {
    pub entry: Entry,
    pub next: usize,
}

// The kinds of records.
#[derive(Clone, Copy)]
enum Kind {
    Order = 1,
    Response = 2,
    Silence = 3,
}

// The kind of a number, or 18.
impl TryFrom<u16> for Kind {
    type Error = Refusal;

    ghost try_from_gives = { Names };

    #[tactic(auto, unfolding(crate::specs::Record::kind_refusal))]
    fn try_from(number: u16) -> Result<Kind, Refusal> {
        match number {
            1 => Ok(Kind::Order),
            2 => Ok(Kind::Response),
            3 => Ok(Kind::Silence),
            _ => Err(Refusal::Record),
        }
    }
}

// The first four bytes of a record.
#[derive(Clone, Copy)]
struct Head {
    size: usize,
    kind: Kind,
}

// The record at a place of a capture; none where nothing is left, also past its end.
#[tactic(auto, using(crate::proofs::Forms::record_end, crate::proofs::Forms::at_refused, crate::proofs::Forms::at_silent))]
pub fn read(capture: &[u8], at: usize) -> Result<Option<Record>, Refusal>
    ensures { found result ≡ record_at capture.now at }
{
    if capture.len() <= at {
        return Ok(None);
    }
    let left = &capture[at..];
    let head = head_of(left)?;
    let body = &left[HEAD..head.size];
    let next = at + head.size;
    let entry = match head.kind {
        Kind::Order => Entry::Order(judge(body)?),
        Kind::Response => Entry::Response(judge(body)?),
        Kind::Silence => Entry::Silence,
    };
    Ok(Some(Record { entry, next }))
}

// 18 of what is left of a capture: length, kind and size of the body.
#[tactic(auto, unfolding(crate::specs::Record::form_refusal, crate::specs::Record::pair_at), using(frame::proofs::LosesNothing::refused))]
fn head_of(left: &[u8]) -> Result<Head, Refusal>
    ensures refusal { refusal_in result ≡ form_refusal left.now }
    ensures head { IfOk result (λ h. (h.size ≡ length_of left.now) × (kind_number h.kind ≡ kind_of left.now)) }
{
    if left.len() < HEAD {
        return Err(Refusal::Record);
    }
    let size = usize::from(u16::from_le_bytes([left[0], left[1]]));
    if size < HEAD || left.len() < size {
        return Err(Refusal::Record);
    }
    let kind = Kind::try_from(u16::from_le_bytes([left[2], left[3]]))?;
    kind_refusal(kind, size - HEAD)?;
    Ok(Head { size, kind })
}

// 18 of the size of a kind's body.
#[tactic(auto, unfolding(crate::specs::Record::kind_refusal))]
fn kind_refusal(kind: Kind, body: usize) -> Result<(), Refusal>
    ensures { refusal_in result ≡ kind_refusal (kind_number kind) body }
{
    let right = match kind {
        Kind::Order | Kind::Response => LEAST_BODY <= body && body <= MOST_BODY,
        Kind::Silence => body == 0,
    };
    if right { Ok(()) } else { Err(Refusal::Record) }
}

// 8, 9, 10 or 12 of a body, else what it carries.
#[tactic(auto, unfolding(crate::specs::Record::frame_in, crate::specs::Record::with_information), using(frame::proofs::LosesNothing::refused, frame::proofs::Messages::information_few))]
fn judge(body: &[u8]) -> Result<Frame, Refusal>
    requires { 2 ≤ length body.now }
    ensures { answer result ≡ frame_in body.now }
{
    let address = body[0];
    refusal::address_refusal(address)?;
    let meaning = control::decode(body[1])?;
    let information = &body[2..];
    refusal::information_refusal(meaning, information)?;
    let size = information.len() as u8;
    Ok(Frame {
        address,
        meaning,
        size,
    })
}
