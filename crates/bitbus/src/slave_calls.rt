// The C surface's calls on a slave, which lies in lent bytes: read, called, and written back unless the call is refused. The C interface names them apart from a master's.
ghost use Rattle.std.specs.Prelude.{◌≡◌, length};
ghost use Rattle.bitbus.specs.Call.{after, number, step_values, take_values};
ghost use Rattle.bitbus.specs.SlaveCalls.{slave_clear, slave_make, slave_put, slave_restart, slave_step, slave_step_out, slave_take, slave_take_out};

use crate::call;
use layout::code;
use slave::Slave;

// Makes a fresh slave: 8.
pub fn bitbus_slave_make(end: &mut [u8; 528], address: u8) -> u32
    ensures number { result ≡ number (slave_make end.old address).answer }
    ensures end { end.new ≡ (slave_make end.old address).end }
{
    call::lay_made(Slave::make(address), end)
}

// Makes the message the held one, unsent: 30, 10, 12, 13.
pub fn bitbus_slave_put(end: &mut [u8; 528], message: &[u8]) -> u32
    ensures number { result ≡ number (slave_put end.old message.now).answer }
    ensures end { end.new ≡ (slave_put end.old message.now).end }
{
    call::number(call::on_end(end, &mut [], |slave: &mut Slave, _| slave.put(message)))
}

// Writes the waiting message to the lent output and gives its size: 30, 14, 11.
pub fn bitbus_slave_take(end: &mut [u8; 528], out: &mut [u8], values: &mut [usize; 1]) -> u32
    ensures number { result ≡ number (slave_take end.old (length out.old)).answer }
    ensures end { end.new ≡ (slave_take end.old (length out.old)).end }
    ensures out { out.new ≡ slave_take_out end.old out.old }
    ensures values { values.new ≡ after take_values (slave_take end.old (length out.old)).answer values.old }
{
    let took = call::on_end(end, out, |slave: &mut Slave, out| slave.take(out));
    call::finish(took, values)
}

// Answers an order: 30, 11, 9, 10, 12, 19.
pub fn bitbus_slave_step(
    end: &mut [u8; 528],
    address: u8,
    control: u8,
    information: &[u8],
    out: &mut [u8],
    values: &mut [usize; 6],
) -> u32
    ensures number { result ≡ number (slave_step end.old address control information.now (length out.old)).answer }
    ensures end { end.new ≡ (slave_step end.old address control information.now (length out.old)).end }
    ensures out { out.new ≡ slave_step_out end.old address control information.now out.old }
    ensures values { values.new ≡ after step_values (slave_step end.old address control information.now (length out.old)).answer values.old }
{
    let meaning = code::meaning_of(control);
    let stepped = call::on_end(
        end,
        out,
        |slave: &mut Slave, out| slave.step(address, meaning, information, out),
    );
    call::finish(stepped, values)
}

// Makes the slave fresh but for its slots, its marks and its address: 30.
pub fn bitbus_slave_restart(end: &mut [u8; 528]) -> u32
    ensures number { result ≡ number (slave_restart end.old).answer }
    ensures end { end.new ≡ (slave_restart end.old).end }
{
    call::number(call::on_end(end, &mut [], |slave: &mut Slave, _| slave.restart()))
}

// Clears the mark for messages in doubt: 30.
pub fn bitbus_slave_clear(end: &mut [u8; 528]) -> u32
    ensures number { result ≡ number (slave_clear end.old).answer }
    ensures end { end.new ≡ (slave_clear end.old).end }
{
    call::number(call::on_end(end, &mut [], |slave: &mut Slave, _| slave.clear()))
}
