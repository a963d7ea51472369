// The exports of a slave: each calls the function of the same name of `bitbus` and promises the same.
ghost use Rattle.std.specs.Prelude.{◌≡◌, length};
ghost use Rattle.bitbus.specs.Call.{after, number, step_values, take_values};
ghost use Rattle.bitbus.specs.SlaveCalls.{slave_clear, slave_make, slave_put, slave_restart, slave_step, slave_step_out, slave_take, slave_take_out};

// Makes a fresh slave: 8.
#[unsafe(no_mangle)]
pub extern "C" fn bitbus_slave_make(end: &mut [u8; 528], address: u8) -> u32
    ensures number { result ≡ number (slave_make end.old address).answer }
    ensures end { end.new ≡ (slave_make end.old address).end }
{
    bitbus::slave_calls::bitbus_slave_make(end, address)
}

// Makes the message the held one, unsent: 30, 10, 12, 13.
#[unsafe(no_mangle)]
pub extern "C" fn bitbus_slave_put(end: &mut [u8; 528], message: &[u8]) -> u32
    ensures number { result ≡ number (slave_put end.old message.now).answer }
    ensures end { end.new ≡ (slave_put end.old message.now).end }
{
    bitbus::slave_calls::bitbus_slave_put(end, message)
}

// Writes the waiting message to the lent output and gives its size: 30, 14, 11.
#[unsafe(no_mangle)]
pub extern "C" fn bitbus_slave_take(
    end: &mut [u8; 528],
    out: &mut [u8],
    values: &mut [usize; 1],
) -> u32
    ensures number { result ≡ number (slave_take end.old (length out.old)).answer }
    ensures end { end.new ≡ (slave_take end.old (length out.old)).end }
    ensures out { out.new ≡ slave_take_out end.old out.old }
    ensures values { values.new ≡ after take_values (slave_take end.old (length out.old)).answer values.old }
{
    bitbus::slave_calls::bitbus_slave_take(end, out, values)
}

// Answers an order: 30, 11, 9, 10, 12, 19.
#[unsafe(no_mangle)]
pub extern "C" fn bitbus_slave_step(
    end: &mut [u8; 528],
    address: u8,
    control: u8,
    information: &[u8],
    out: &mut [u8],
    values: &mut [usize; 6],
) -> u32
    ensures number { result ≡ number (slave_step end.old address control information.now (length out.old)).answer }
    ensures end { end.new ≡ (slave_step end.old address control information.now (length out.old)).end }
    ensures out { out.new ≡ slave_step_out end.old address control information.now out.old }
    ensures values { values.new ≡ after step_values (slave_step end.old address control information.now (length out.old)).answer values.old }
{
    bitbus::slave_calls::bitbus_slave_step(end, address, control, information, out, values)
}

// Makes the slave fresh but for its slots, its marks and its address: 30.
#[unsafe(no_mangle)]
pub extern "C" fn bitbus_slave_restart(end: &mut [u8; 528]) -> u32
    ensures number { result ≡ number (slave_restart end.old).answer }
    ensures end { end.new ≡ (slave_restart end.old).end }
{
    bitbus::slave_calls::bitbus_slave_restart(end)
}

// Clears the mark for messages in doubt: 30.
#[unsafe(no_mangle)]
pub extern "C" fn bitbus_slave_clear(end: &mut [u8; 528]) -> u32
    ensures number { result ≡ number (slave_clear end.old).answer }
    ensures end { end.new ≡ (slave_clear end.old).end }
{
    bitbus::slave_calls::bitbus_slave_clear(end)
}
