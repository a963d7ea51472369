// Document 01's wire examples and published check words: each input with what the code makes of it.
use crate::print::{self, say};
use bits::check;
use frame::{Meaning, ReceiveCount, Refusal, SendCount, control, message};
use std::io::Stdout;

pub fn show(to: Stdout) {
    check_words(to);
    control_bytes(to);
    messages(to);
    addresses(to);
    frames(to);
    strange_lines(to);
    levels(to);
}

// The nine digits of 01; three examples of ISO/IEC 14443-3, annex B; four frames of ITU-T X.25, appendix I.
fn check_words(to: Stdout) {
    say!(to; "check word\n");
    check_word(to, b"123456789");
    check_word(to, &[0, 0, 0]);
    check_word(to, &[0x0F, 0xAA, 0xFF]);
    check_word(to, &[0x0A, 0x12, 0x34, 0x56]);
    check_word(to, &[0x03, 0x3F]);
    check_word(to, &[0x01, 0x73]);
    check_word(to, &[0x01, 0x3F]);
    check_word(to, &[0x03, 0x73]);
}

fn check_word(to: Stdout, bytes: &[u8]) {
    print::hex(to, bytes);
    say!(to; " "; "{:04x}", check::check_word(bytes); "\n");
}

// Every byte that is known, and how many are not: P5 to P8 among them.
fn control_bytes(to: Stdout) {
    say!(to; "control byte\n");
    for byte in 0..=u8::MAX {
        if let Ok(meaning) = control::decode(byte) {
            say!(to; "{:02x}", byte; " ");
            print::kind(to, meaning);
            say!(to; "\n");
        }
    }
    let unknown = (0..=u8::MAX)
        .filter(|byte| control::decode(*byte).is_err())
        .count();
    say!(to; "{}", unknown; " refused 9\n");
}

// Information of 4 and of 254 bytes is refused, of 5 and of 253 taken; the first byte is the size plus 2.
fn messages(to: Stdout) {
    say!(to; "message\n");
    checked(to, &[6, 0, 0, 0]);
    checked(to, &[7, 0, 5, 0x31, 1]);
    checked(to, &[6, 0, 5, 0x31, 1]);
    checked(to, &[0xFF; 253]);
    checked(to, &[0; 254]);
}

fn checked(to: Stdout, message: &[u8]) {
    say!(to; "{}", message.len(); " ");
    taken(to, message::check(message));
}

// Address 0 and 251 are refused, 1 and 250 taken.
fn addresses(to: Stdout) {
    say!(to; "address\n");
    for address in [0, 1, 250, 251] {
        let mut out = [0; 311];
        say!(to; "{}", address; " ");
        taken(
            to,
            writer::write(address, Meaning::Disc, b"", &mut out).map(|_| ()),
        );
    }
}

fn taken(to: Stdout, taken: Result<(), Refusal>) {
    match taken {
        Ok(()) => {
            say!(to; "taken"; "\n");
        }
        Err(refusal) => refused(to, refusal),
    }
}

fn refused(to: Stdout, refusal: Refusal) {
    print::refused(to, refusal);
    say!(to; "\n");
}

// Frames of each kind, the longest among them: what is written, and what is read back.
fn frames(to: Stdout) {
    say!(to; "frame\n");
    both_ways(to, 5, Meaning::Snrm, b"");
    both_ways(to, 5, Meaning::Ua, b"");
    both_ways(
        to,
        5,
        Meaning::I(SendCount(0), ReceiveCount(0)),
        &[7, 0, 5, 0x31, 1],
    );
    both_ways(to, 1, Meaning::Rr(ReceiveCount(7)), b"");
    both_ways(to, 250, Meaning::Rnr(ReceiveCount(2)), b"");
    both_ways(
        to,
        250,
        Meaning::I(SendCount(7), ReceiveCount(7)),
        &[0xFF; 253],
    );
}

fn both_ways(to: Stdout, address: u8, meaning: Meaning, information: &[u8]) {
    let mut out = [0; 311];
    match writer::write(address, meaning, information, &mut out) {
        Ok(report) => {
            say!(to; "{}", report.bits; " "; "{}", report.zeros; " ");
            print::hex(to, &out);
            say!(to; "\n");
            heard(to, &out, report.bits);
        }
        Err(refusal) => refused(to, refusal),
    }
}

// Lines that hold no frame: no flag, a count past the limit, five ones at the end of the content, no whole byte, too few bytes, a flag without its first zero.
fn strange_lines(to: Stdout) {
    say!(to; "line\n");
    heard(to, &[0; 8], 64);
    heard(to, &[0; 8], 65);
    heard(to, &[0x7E, 0xDF, 0x0F], 21);
    heard(to, &[0x7E, 0x9F, 0x1F], 22);
    heard(to, &[0x7E, 0x00, 0x00, 0x7E], 32);
    heard(to, &[0x3F, 0x00, 0x00, 0x3F], 32);
}

fn heard(to: Stdout, buffer: &[u8], bits: usize) {
    let mut information = [0; 253];
    match reader::read(buffer, bits, &mut information) {
        Ok(frame) => {
            say!(to; "{}", frame.address; " ");
            print::kind(to, frame.meaning);
            say!(to; " "; "{}", frame.size; " ");
            print::hex(to, &information);
            say!(to; "\n");
        }
        Err(refusal) => refused(to, refusal),
    }
}

// P12: from level 1 a flag gives 0 seven times, then 1; and back. The other bits of the lent output stay.
fn levels(to: Stdout) {
    say!(to; "nrzi\n");
    let mut out = [0xAA; 2];
    coded(to, nrzi::encode(true, &[0x7E], 8, &mut out));
    print::hex(to, &out);
    say!(to; "\n");
    let mut back = [0xAA; 2];
    coded(to, nrzi::decode(true, &out, 11, &mut back));
    print::hex(to, &back);
    say!(to; "\n");
}

fn coded(to: Stdout, coded: Result<bool, Refusal>) {
    match coded {
        Ok(level) => {
            say!(to; "{} ", u8::from(level));
        }
        Err(refusal) => print::refused(to, refusal),
    }
}
