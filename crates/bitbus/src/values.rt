// What a call gives, as the numbers of its values array.
ghost use Rattle.std.specs.Prelude.{ℕ, ◌≡◌, List};
ghost use Rattle.bitbus.specs.Call.{line_values, step_values, take_values};
ghost use Rattle.bitbus.specs.Captures.{found_values, frame_values};
ghost use Rattle.bitbus.specs.MasterCalls.{heard_values};
ghost use Rattle.bitbus.specs.Wire.{level_values, write_values};

use capture::records::{Entry, Frame, Record};
use frame::Line;
use layout::code;
use side::answer::News;
use writer::Report;

// In place of `From`, which only the crates of what is given could have for an array.
pub(crate) trait Values<const N: usize>: Copy {
    ghost numbers: { Self → List ℕ };

    fn numbers(self) -> [usize; N]
        ensures { result ≡ numbers self };
}

// The size of a message or of a listing.
impl Values<1> for usize {
    ghost numbers = { take_values };

    fn numbers(self) -> [usize; 1] {
        [self]
    }
}

// The level at the end of NRZI.
impl Values<1> for bool {
    ghost numbers = { level_values };

    fn numbers(self) -> [usize; 1] {
        [code::level_number(self)]
    }
}

// What goes on the line: address, control byte, information size.
impl Values<3> for Line {
    ghost numbers = { line_values };

    fn numbers(self) -> [usize; 3] {
        [
            usize::from(self.address),
            code::control_of(self.meaning),
            self.size,
        ]
    }
}

// A response, and what the order brought.
impl Values<6> for (Line, News) {
    ghost numbers = { step_values };

    fn numbers(self) -> [usize; 6] {
        let (line, news) = self;
        let [address, control, size]: [usize; 3] = line.numbers();
        [
            address,
            control,
            size,
            news.confirmed,
            news.handed,
            code::link_number(news.link),
        ]
    }
}

// What a response brought; one that counts as silence brings nothing.
impl Values<4> for Option<News> {
    ghost numbers = { heard_values };

    fn numbers(self) -> [usize; 4] {
        match self {
            Some(news) => [0, news.confirmed, news.handed, code::link_number(news.link)],
            None => [1, 0, 0, 0],
        }
    }
}

// Line bits, and the inserted zeros among them.
impl Values<2> for Report {
    ghost numbers = { write_values };

    fn numbers(self) -> [usize; 2] {
        [self.bits, self.zeros]
    }
}

// A record of a capture: its way (0 the end, 1 order, 2 response, 3 silence), its frame, and where the next begins.
impl Values<5> for Option<Record> {
    ghost numbers = { found_values };

    fn numbers(self) -> [usize; 5] {
        let Some(Record { entry, next }) = self else {
            return [0, 0, 0, 0, 0];
        };
        match entry {
            Entry::Order(frame) => frame_values(1, frame, next),
            Entry::Response(frame) => frame_values(2, frame, next),
            Entry::Silence => [3, 0, 0, 0, next],
        }
    }
}

fn frame_values(way: usize, frame: Frame, next: usize) -> [usize; 5]
    ensures { result ≡ frame_values way frame next }
{
    [
        way,
        usize::from(frame.address),
        code::control_of(frame.meaning),
        usize::from(frame.size),
        next,
    ]
}
