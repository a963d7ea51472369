// The line of what stands at a place of a capture.
#![tactic(auto, using(crate::proofs::Digits::decimal_few, crate::proofs::Putting::puts_on))]

ghost use Rattle.std.specs.Prelude.{◌≡◌, ◌+◌, ◌^◌, ◌<◌};
ghost use Rattle.capture.specs.Record.{found as found_as};
ghost use Rattle.listing.specs.Listing.{frame_line, line_of};
ghost use Rattle.listing.specs.Put.{Puts, middle};

use crate::text::Text;
use capture::records::{Entry, Frame, Record};
use frame::{Meaning, Refusal};

impl Text<'_> {
    pub(crate) fn line(&mut self, number: u32, found: Result<Option<Record>, Refusal>)
        requires { self.old.at < 2 ^ 40 }
        ensures { Puts (line_of number (found_as found)) self.old self.new }
    {
        match found {
            Ok(Some(record)) => match record.entry {
                Entry::Order(frame) => self.frame(number, b'>', frame),
                Entry::Response(frame) => self.frame(number, b'<', frame),
                Entry::Silence => {
                    self.number(number);
                    self.word(b" . - - - - -\n");
                }
            },
            Ok(None) => {}
            Err(refusal) => {
                self.number(number);
                self.word(b" refused ");
                self.number(u32::from(refusal.number()));
                self.word(b"\n");
            }
        }
    }

    fn frame(&mut self, number: u32, way: u8, frame: Frame)
        requires { self.old.at < 2 ^ 40 }
        ensures { Puts (frame_line number way frame) self.old self.new }
    {
        self.number(number);
        self.word(&[b' ', way, b' ']);
        self.number(u32::from(frame.address));
        self.meaning(frame.meaning);
        self.number(u32::from(frame.size));
        self.word(b"\n");
    }

    // The fields that the meaning decides, with the spaces around them; words by hand for the same reason as digits (text.rt).
    fn meaning(&mut self, meaning: Meaning)
        requires { self.old.at < 2 ^ 42 }
        ensures short { self.new.at < self.old.at + 1000 }
        ensures puts { Puts (middle meaning) self.old self.new }
    {
        match meaning {
            Meaning::I(ns, nr) => {
                self.word(b" I ");
                self.number(u32::from(ns.0));
                self.word(b" ");
                self.number(u32::from(nr.0));
                self.word(b" ");
            }
            Meaning::Rr(nr) => {
                self.word(b" RR - ");
                self.number(u32::from(nr.0));
                self.word(b" ");
            }
            Meaning::Rnr(nr) => {
                self.word(b" RNR - ");
                self.number(u32::from(nr.0));
                self.word(b" ");
            }
            Meaning::Snrm => self.word(b" SNRM - - "),
            Meaning::Disc => self.word(b" DISC - - "),
            Meaning::Ua => self.word(b" UA - - "),
            Meaning::Frmr => self.word(b" FRMR - - "),
        }
    }
}
