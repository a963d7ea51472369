// The listing of a capture: the header, a line per record, and at a refused record its line and no more.
#![tactic(auto)]

mod line;
mod text;

ghost use Rattle.std.specs.Prelude.{◌≡◌, ◌≤◌, ◌<◌, length};
ghost use Rattle.frame.specs.Answer.{answer};
ghost use Rattle.capture.specs.Record.{found as found_as};
ghost use Rattle.listing.specs.Listing.{lines_of, listing as listing_of, list_of, list_bytes};
ghost use Rattle.listing.specs.Put.{Put, Puts, place_after};

use crate::text::Text;
use capture::records::{Record, read};
use frame::Refusal;

// The longest capture that is listed.
pub const MOST_CAPTURE: usize = 65536;

// The least size of a lent output that suffices for every capture (specs/Promises: Suffices, Least).
pub const MOST_TEXT: usize = 283838;

// Writes the listing of a capture and gives its size, or 11 where the lent bytes do not hold it. The text is measured before, on no bytes at
// all, since a refused call leaves the lent bytes as they were.
pub fn list(capture: &[u8], out: &mut [u8]) -> Result<usize, Refusal>
    ensures answer { answer result ≡ list_of capture.now (length out.old) }
    ensures bytes { out.new ≡ list_bytes capture.now out.old }
{
    if out.len() < put_listing(capture, &mut []) {
        return Err(Refusal::Output);
    }
    Ok(put_listing(capture, out))
}

#[tactic(auto, using(crate::proofs::Listings::listing_long, crate::proofs::Listings::listing_lines, crate::proofs::Putting::puts_on))]
fn put_listing(capture: &[u8], out: &mut [u8]) -> usize
    ensures { Put (listing_of capture.now) 0 out.old out.new result }
{
    let mut text = Text::new(out);
    if MOST_CAPTURE < capture.len() {
        text.word(b"too long\n");
        return text.size();
    }
    text.word(b"no way node kind ns nr info\n");
    put_lines(capture, &mut text);
    text.size()
}

#[tactic(auto, using(crate::proofs::Lines::sofar_none, crate::proofs::Lines::further))]
fn put_lines(capture: &[u8], text: &mut Text)
    requires { (length capture.now ≤ 65536) × (text.old.at < 100) }
    ensures { Puts (lines_of capture.now) text.old text.new }
{
    // No `for`: the next record's place stands in the record before it.
    let mut place = 0;
    let mut number = 1;
    while place < capture.len() {
        let found = read(capture, place);
        text.line(number, found);
        place = place_after(found, capture.len());
        number += 1;
    }
}

// Where the next line's record is: at the capture's end after a refused one.
fn place_after(found: Result<Option<Record>, Refusal>, last: usize) -> usize
    ensures { result ≡ place_after (found_as found) last }
{
    match found {
        Ok(Some(record)) => record.next,
        Ok(None) => last,
        Err(_) => last,
    }
}
