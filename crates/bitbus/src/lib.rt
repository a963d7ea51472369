// The C surface: functions over numbers and lent bytes, for the firmware of a master or a slave, which bitbus_c exports. include/bitbus.h says what each does.
#![tactic(auto)]

mod call;
pub mod captures;
pub mod master_calls;
pub mod slave_calls;
mod values;
pub mod wire;
