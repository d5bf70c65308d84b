// How many bytes each buffer of fixed size has.

// A master key.
pub const MASTER: usize = 32;

// A file id.
pub const ID: usize = 8;

// A card of version 1 or 2.
pub const CARD: usize = 43;

// A card of version 3.
pub const TWO_STEP_CARD: usize = 63;

// A token record.
pub const RECORD: usize = 63;

// A message.
pub const MESSAGE: usize = 91;

// A reply.
pub const REPLY: usize = 110;

// A weekly plan.
pub const PLAN: usize = 28;

// A buffer of totals.
pub const TOTALS: usize = 16;

// A planning sheet.
pub const SHEET: usize = 40;

// What a pooled reply begins with.
pub const POOLED_HEAD: usize = 37;

// What it has of each file: id, token number and record.
pub const POOLED_ENTRY: usize = 75;

// A token record, as a number of 64 bits: for products with a number of tokens.
pub const RECORD_BYTES: u64 = 63;

// A reply, and the parts of a pooled one, in the same way.
pub const REPLY_BYTES: u64 = 110;

pub const POOLED_HEAD_BYTES: u64 = 37;

pub const POOLED_ENTRY_BYTES: u64 = 75;
