// The C surface's calls on a master, which lies in lent bytes: read, called, and written back unless the call is refused. The C interface names them apart from a slave's.
ghost use Rattle.std.specs.Prelude.{◌≡◌, length};
ghost use Rattle.bitbus.specs.Call.{after, line_values, number, take_values};
ghost use Rattle.bitbus.specs.MasterCalls.{master_clear, master_make, master_order, master_order_out, master_put, master_response, master_restart, master_silence, master_take, master_take_out, response_values};

use crate::call;
use layout::code;
use master::Master;

// Makes a fresh master: 8, 15.
pub fn bitbus_master_make(end: &mut [u8; 538], address: u8, limit: u32) -> u32
    ensures number { result ≡ number (master_make end.old address limit).answer }
    ensures end { end.new ≡ (master_make end.old address limit).end }
{
    call::lay_made(Master::make(address, limit), end)
}

// Makes the message the held one, unsent: 30, 10, 12, 13.
pub fn bitbus_master_put(end: &mut [u8; 538], message: &[u8]) -> u32
    ensures number { result ≡ number (master_put end.old message.now).answer }
    ensures end { end.new ≡ (master_put end.old message.now).end }
{
    call::number(call::on_end(end, &mut [], |master: &mut Master, _| master.put(message)))
}

// Writes the waiting message to the lent output and gives its size: 30, 14, 11.
pub fn bitbus_master_take(end: &mut [u8; 538], out: &mut [u8], values: &mut [usize; 1]) -> u32
    ensures number { result ≡ number (master_take end.old (length out.old)).answer }
    ensures end { end.new ≡ (master_take end.old (length out.old)).end }
    ensures out { out.new ≡ master_take_out end.old out.old }
    ensures values { values.new ≡ after take_values (master_take end.old (length out.old)).answer values.old }
{
    let took = call::on_end(end, out, |master: &mut Master, out| master.take(out));
    call::finish(took, values)
}

// Gives the next order: 30, 17, 11.
pub fn bitbus_master_order(
    end: &mut [u8; 538],
    tick: u32,
    out: &mut [u8],
    values: &mut [usize; 3],
) -> u32
    ensures number { result ≡ number (master_order end.old tick (length out.old)).answer }
    ensures end { end.new ≡ (master_order end.old tick (length out.old)).end }
    ensures out { out.new ≡ master_order_out end.old tick out.old }
    ensures values { values.new ≡ after line_values (master_order end.old tick (length out.old)).answer values.old }
{
    let ordered = call::on_end(end, out, |master: &mut Master, out| master.order(tick, out));
    call::finish(ordered, values)
}

// Takes the response to the order: 30, 16, 9, 10, 12.
pub fn bitbus_master_response(
    end: &mut [u8; 538],
    tick: u32,
    address: u8,
    control: u8,
    information: &[u8],
    values: &mut [usize; 4],
) -> u32
    ensures number { result ≡ number (master_response end.old tick address control information.now).answer }
    ensures end { end.new ≡ (master_response end.old tick address control information.now).end }
    ensures values { values.new ≡ after response_values (master_response end.old tick address control information.now).answer values.old }
{
    let meaning = code::meaning_of(control);
    let heard = call::on_end(
        end,
        &mut [],
        |master: &mut Master, _| master.response(address, meaning, information, tick),
    );
    call::finish(heard, values)
}

// No response came: 30, 16.
pub fn bitbus_master_silence(end: &mut [u8; 538]) -> u32
    ensures number { result ≡ number (master_silence end.old).answer }
    ensures end { end.new ≡ (master_silence end.old).end }
{
    call::number(call::on_end(end, &mut [], |master: &mut Master, _| master.silence()))
}

// Makes the master fresh but for its slots, its marks, its address and its limit: 30.
pub fn bitbus_master_restart(end: &mut [u8; 538]) -> u32
    ensures number { result ≡ number (master_restart end.old).answer }
    ensures end { end.new ≡ (master_restart end.old).end }
{
    call::number(call::on_end(end, &mut [], |master: &mut Master, _| master.restart()))
}

// Clears the mark for messages in doubt: 30.
pub fn bitbus_master_clear(end: &mut [u8; 538]) -> u32
    ensures number { result ≡ number (master_clear end.old).answer }
    ensures end { end.new ≡ (master_clear end.old).end }
{
    call::number(call::on_end(end, &mut [], |master: &mut Master, _| master.clear()))
}
