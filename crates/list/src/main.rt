// The program "list": reads a capture on standard input and writes its listing on standard output.
#![tactic(auto)]

ghost use Rattle.std.specs.Prelude.{length, IfSome};
ghost use Rattle.listing.specs.Listing.{listing as listing_of};
ghost use Rattle.list.specs.Streams.{Answers, Reads, Writes, Runs};

use std::io;
use std::io::{ErrorKind, Read, Write};

// One byte more than the longest capture that is listed, so that a longer one is seen to be too long.
const ROOM: usize = 65537;

// What cannot be told stays untold.
fn main(rt: HostRuntime) {
    let _ = run(&mut rt.stdin(), &mut rt.stdout(), &mut rt.stderr());
}

// Writes the listing of the whole input, however long that is, or tells among the errors what failed. An error is one of telling.
#[tactic(auto, using(crate::proofs::Whole::runs))]
fn run<R: Read, W: Write, E: Write>(from: &mut R, to: &mut W, errors: &mut E) -> io::Result<()>
    ensures { IfSome (R.remaining from.old) (Runs result (W.contents to.old) (W.contents to.new) (E.contents errors.old) (E.contents errors.new)) }
{
    let mut bytes = [0u8; ROOM];
    let capture = read_input(from, &mut bytes);
    answer(to, errors, capture)
}

// Reads to the input's end or until the bytes are full, whatever the pieces it arrives in. Not `read_to_end`, which needs a heap.
fn read_input<'a, R: Read>(from: &mut R, bytes: &'a mut [u8]) -> io::Result<&'a [u8]>
    ensures { IfSome (R.remaining from.old) (Reads (length bytes.old) result) }
{
    let mut size = 0;
    while size < bytes.len() {
        match from.read(&mut bytes[size..])? {
            0 => return Ok(&bytes[..size]),
            more => size += more,
        }
    }
    Ok(&bytes[..size])
}

fn answer<W: Write, E: Write>(
    to: &mut W,
    errors: &mut E,
    capture: io::Result<&[u8]>,
) -> io::Result<()>
    ensures { Answers result capture.entry (W.contents to.old) (W.contents to.new) (E.contents errors.old) (E.contents errors.new) }
{
    match capture {
        Ok(capture) => match list(to, capture) {
            Ok(()) => Ok(()),
            Err(_) => write_text(errors, b"list: standard output cannot be written\n"),
        },
        Err(_) => write_text(errors, b"list: standard input cannot be read\n"),
    }
}

fn list<W: Write>(to: &mut W, capture: &[u8]) -> io::Result<()>
    ensures { Writes result (W.contents to.old) (W.contents to.new) (listing_of capture.now) }
{
    let mut text = [0u8; listing::MOST_TEXT];
    let size = listing::list(capture, &mut text).unwrap();
    write_text(to, &text[..size])
}

// Writes the text, in as many pieces as the output takes them. A write that fails or takes nothing ends it. Not `write_all`: where that fails
// it does not say that a first part was written.
fn write_text<W: Write>(to: &mut W, text: &[u8]) -> io::Result<()>
    ensures { Writes result (W.contents to.old) (W.contents to.new) text.now }
{
    let mut left = text;
    while !left.is_empty() {
        match to.write(left) {
            Ok(0) => return Err(io::Error::from(ErrorKind::WriteZero)),
            Ok(more) => left = &left[more..],
            Err(e) => return Err(e),
        }
    }
    Ok(())
}
