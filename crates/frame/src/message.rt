// The message check, and where the fields of a message stand.
ghost use Rattle.std.specs.Prelude.{◌≡◌, ◌/◌, ◌%◌};
ghost use Rattle.frame.specs.Answer.{answer, refusal_in};
ghost use Rattle.frame.specs.Message.{check_of, information_in, message_refusal};

use crate::Refusal;

// The least and the greatest size of a message.
pub const LEAST_SIZE: usize = 5;

pub const MOST_SIZE: usize = 253;

// The places of a message's fields; the data follow, 0 to 248 bytes.
pub const LENGTH_AT: usize = 0;

pub const FLAGS_AT: usize = 1;

pub const NODE_AT: usize = 2;

pub const TASKS_AT: usize = 3;

pub const COMMAND_AT: usize = 4;

pub const DATA_AT: usize = 5;

// The flags from the top of their byte; its four low bits are reserved.
pub const MT: u8 = 0x80;

pub const SE: u8 = 0x40;

pub const DE: u8 = 0x20;

pub const TR: u8 = 0x10;

// The message check: 10, then 12, of the part of a frame from byte 2 up to the check word. It and `message_refusal` are both promised (docs/PROMISES.md).
#[tactic(auto, unfolding(crate::specs::Message::check_of))]
pub fn check(part: &[u8]) -> Result<(), Refusal>
    ensures { answer result ≡ check_of part.now }
{
    message_refusal(part)
}

// The message check of a whole frame: address, control, information, check word.
pub fn check_in(frame: &[u8]) -> Result<(), Refusal>
    ensures { answer result ≡ check_of (information_in frame.now) }
{
    check(information(frame))
}

// The part of a whole frame from byte 2 up to the check word; nothing of a frame that has no room for one.
#[tactic(auto, unfolding(crate::specs::Message::information_in))]
pub fn information(frame: &[u8]) -> &[u8]
    ensures { result.now ≡ information_in frame.now }
{
    let size = frame.len();
    if size < 4 {
        return &frame[..0];
    }
    let end = size - 2;
    &frame[2..end]
}

// 10 or 12 of a message: it looks at size and length byte only.
#[tactic(auto, unfolding(crate::specs::Message::message_refusal))]
pub fn message_refusal(message: &[u8]) -> Result<(), Refusal>
    ensures { refusal_in result ≡ message_refusal message.now }
{
    let size = message.len();
    if size < LEAST_SIZE || MOST_SIZE < size {
        return Err(Refusal::Information);
    }
    if message[LENGTH_AT] as usize != size + 2 {
        return Err(Refusal::LengthByte);
    }
    Ok(())
}

// The task that sent the message: the high half of the tasks byte.
pub fn source_task(tasks: u8) -> u8
    ensures { result ≡ tasks / 16 }
{
    tasks / 16
}

// The task that the message is for: the low half of the tasks byte.
pub fn destination_task(tasks: u8) -> u8
    ensures { result ≡ tasks % 16 }
{
    tasks % 16
}
