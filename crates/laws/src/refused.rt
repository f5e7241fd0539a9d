// The numbers of 01's "Places of refusal", in the table's order, each under its condition, and those that 02 adds. They
// are those of specs/Refusal.antt. They are numbers, as the C interface answers them: the errors of each call are enums, and
// an enum of the numbers too would be cast at each use.

// A call that is not refused: the number of no place.
pub const NOT_REFUSED: u32 = 0;

// Opening: under 3 bytes, or byte 0 is not 1.
pub const VERSION: u32 = 1;
// A length does not fit.
pub const LENGTH: u32 = 2;
// Over 64 meters.
pub const CAPACITY: u32 = 3;

// Each record: primary over 250.
pub const PRIMARY: u32 = 4;
// Id.
pub const ID: u32 = 5;
// Manufacturer.
pub const MANUFACTURER: u32 = 6;
// Medium.
pub const MEDIUM: u32 = 7;
// Own baud.
pub const OWN_BAUD: u32 = 8;
// Fault.
pub const FAULT: u32 = 9;

// Opening, baud change: baud not one of eight.
pub const BAUD: u32 = 10;

// Telegram writer: data over 252.
pub const DATA: u32 = 11;
// Telegram writer, export: lent bytes too few.
pub const ROOM: u32 = 12;

// Send: piece over 1,024.
pub const PIECE: u32 = 13;
// Send, search: a clock field out of range.
pub const CLOCK: u32 = 14;
// Send: queue would pass 4,096.
pub const QUEUE: u32 = 15;

// Search: input or queue not empty.
pub const NOT_EMPTY: u32 = 16;
// Fewer entries lent than meters opened.
pub const ENTRIES: u32 = 17;

// Export: a primary above 250.
pub const HIGH_PRIMARY: u32 = 18;
