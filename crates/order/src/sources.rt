// What orders read of a record.
use machine::Register;

// Whether it is sound, and the registers that an order names as sources x and y: a flag beside them, since an unsound record's
// are read as well.
#[derive(Clone, Copy)]
pub struct Sources {
    pub sound: bool,
    pub a: Register,
    pub b: Register,
}

// From where on the tapes and channels are used.
#[derive(Clone, Copy)]
pub struct Positions {
    pub masks: u64,
    pub channels: u64,
    pub dealer: u64,
}
