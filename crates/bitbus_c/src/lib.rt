// The static library for C: the exported functions that include/bitbus.h declares, over the library `bitbus`. The C interface needs each by its name, so each stands there and here.
#![tactic(auto)]

mod captures;
mod master_calls;
mod slave_calls;
mod wire;
