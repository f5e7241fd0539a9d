// A mark is one number, and no struct of flags, so that a sweep over all marks is vectorised. Its places: those that
// follow the first, selected, which is the lowest bit (mark % 2). Each is one bit, but for the readouts and the access
// number, which have a byte. A meter at another baud has mark 0.
pub const FRESH: u32 = 2; // reset by a select

pub const HEARS: u32 = 4; // hears the next telegram

pub const CLEAR: u32 = 8; // last FCB clear

pub const STEADY: u32 = 16; // at bus baud, steady

pub const FLAKY: u32 = 32; // at bus baud, flaky

pub const FAILS: u32 = 64; // its reading always fails

pub const TOO_MANY: u32 = 128; // too_many

pub const READOUTS: u32 = 256; // the readouts

pub const ACCESS: u32 = 65536; // the access number
