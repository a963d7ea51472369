// What a frame means: the two counts, the meaning of a control byte, the message check, and the paper's numbers by name.
#![tactic(auto)]

pub mod control;
pub mod message;
pub mod number;
pub mod refusal;

pub use number::Refusal;

// The send count Ns, 0 to 7. A type of its own, so that it never serves as the receive count.
#[derive(Clone, Copy, Debug, PartialEq, Eq)]
pub struct SendCount(pub u8);

// The receive count Nr, 0 to 7.
#[derive(Clone, Copy, Debug, PartialEq, Eq)]
pub struct ReceiveCount(pub u8);

// What a control byte says: I carries both counts, RR and RNR carry one, the rest none.
#[derive(Clone, Copy, Debug, PartialEq, Eq)]
pub enum Meaning {
    I(SendCount, ReceiveCount),
    Rr(ReceiveCount),
    Rnr(ReceiveCount),
    Snrm,
    Disc,
    Ua,
    Frmr,
}

// What goes on the line or was read of it: the station's address, the meaning, and the size of the information in the lent buffer.
// No `Option`: information of no bytes and none are the same.
#[derive(Clone, Copy, Debug, PartialEq, Eq)]
pub struct Line {
    pub address: u8,
    pub meaning: Meaning,
    pub size: usize,
}
