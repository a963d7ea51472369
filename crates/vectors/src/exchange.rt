// A scripted exchange between a master and a slave: synchronising, a message each way, a lost response, a late one, a restart.
use crate::print::{self, say};
use frame::{Line, Refusal};
use master::Master;
use side::answer::{Change, News};
use slave::Slave;
use std::io::Stdout;

// Both ends of a link, and where it is printed what they do.
#[derive(Drop)]
struct Link {
    to: Stdout,
    master: Master,
    slave: Slave,
}

// What becomes of an order and of its response, which arrives at an age in ticks.
#[derive(Clone, Copy)]
enum Fate {
    Answered(u32),
    OrderLost,
    ResponseLost,
}

// The answer limit: 99 ticks later is in time, 100 later is late.
const LIMIT: u32 = 100;

const WHOLE: Fate = Fate::Answered(LIMIT - 1);

const LATE: Fate = Fate::Answered(LIMIT);

pub fn show(to: Stdout) {
    say!(to; "exchange\n");
    let (Ok(master), Ok(slave)) = (Master::make(5, LIMIT), Slave::make(5)) else {
        return;
    };
    let mut link = Link { to, master, slave };
    link.exchange(0, WHOLE);
    link.exchange(200, WHOLE);
    let done = link.master.put(&[7, 0, 5, 0x31, 1]);
    link.done("master puts", done);
    let done = link.slave.put(&[8, 0x80, 5, 0x13, 2, 9]);
    link.done("slave puts", done);
    link.exchange(400, Fate::ResponseLost);
    let mut message = [0; 253];
    let taken = link.slave.take(&mut message);
    link.taken("slave takes", taken, &message);
    link.exchange(600, LATE);
    link.exchange(800, Fate::OrderLost);
    link.exchange(1000, WHOLE);
    link.exchange(1200, WHOLE);
    let taken = link.master.take(&mut message);
    link.taken("master takes", taken, &message);
    let done = link.slave.restart();
    link.done("slave restarts", done);
    for tick in [1400, 1600, 1800, 2000] {
        link.exchange(tick, WHOLE);
    }
}

impl Link {
    // One exchange: the order, the slave's step, the master's response or silence.
    fn exchange(&mut self, tick: u32, fate: Fate) {
        let mut down = [0; 253];
        match self.master.order(tick, &mut down) {
            Ok(line) => {
                say!(self.to; "> ");
                self.sent(line, &down);
                self.arrives(tick, fate, line, &down);
            }
            Err(refusal) => self.refused(refusal),
        }
    }

    fn arrives(&mut self, tick: u32, fate: Fate, order: Line, down: &[u8]) {
        let mut up = [0; 253];
        match fate {
            Fate::OrderLost => self.silent(),
            Fate::ResponseLost => {
                let _ = self.steps(order, down, &mut up);
                self.silent();
            }
            Fate::Answered(age) => {
                if let Some(response) = self.steps(order, down, &mut up) {
                    self.hears(tick.wrapping_add(age), response, &up);
                }
            }
        }
    }

    // The slave's step: its response, unless it is refused.
    fn steps(&mut self, order: Line, down: &[u8], up: &mut [u8]) -> Option<Line> {
        match self
            .slave
            .step(order.address, order.meaning, part(down, order.size), up)
        {
            Ok((response, news)) => {
                say!(self.to; "< ");
                self.sent(response, up);
                say!(self.to; "slave ");
                self.told(news);
                Some(response)
            }
            Err(refusal) => {
                self.refused(refusal);
                None
            }
        }
    }

    fn hears(&mut self, tick: u32, response: Line, up: &[u8]) {
        let information = part(up, response.size);
        let heard = self
            .master
            .response(response.address, response.meaning, information, tick);
        say!(self.to; "master ");
        match heard {
            Ok(Some(news)) => self.told(news),
            Ok(None) => {
                say!(self.to; "silence\n");
            }
            Err(refusal) => self.refused(refusal),
        }
    }

    fn silent(&mut self) {
        let done = self.master.silence();
        self.done(".", done);
    }

    fn sent(&self, line: Line, bytes: &[u8]) {
        say!(self.to; "{}", line.address; " ");
        print::kind(self.to, line.meaning);
        say!(self.to; " "; "{}", line.size; " ");
        print::hex(self.to, part(bytes, line.size));
        say!(self.to; "\n");
    }

    fn told(&self, news: News) {
        let link = match news.link {
            Change::Same => "\n",
            Change::Gained => " gained\n",
            Change::Lost => " lost\n",
        };
        say!(self.to; "confirmed "; "{}", news.confirmed; " handed "; "{}", news.handed; "{}", link);
    }

    fn done(&self, call: &str, done: Result<(), Refusal>) {
        say!(self.to; "{} ", call);
        match done {
            Ok(()) => {
                say!(self.to; "done\n");
            }
            Err(refusal) => self.refused(refusal),
        }
    }

    fn taken(&self, call: &str, taken: Result<usize, Refusal>, out: &[u8]) {
        say!(self.to; "{} ", call);
        match taken {
            Ok(size) => {
                print::hex(self.to, part(out, size));
                say!(self.to; "\n");
            }
            Err(refusal) => self.refused(refusal),
        }
    }

    fn refused(&self, refusal: Refusal) {
        print::refused(self.to, refusal);
        say!(self.to; "\n");
    }
}

// The first bytes of a buffer, or all that it has.
fn part(bytes: &[u8], size: usize) -> &[u8] {
    bytes.get(..size).unwrap_or(bytes)
}
