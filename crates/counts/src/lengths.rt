// What the length field of a record says: the bytes that come after the field.

// A card of version 1 or 2.
pub const CARD: u64 = 41;

// A card of version 3.
pub const TWO_STEP_CARD: u64 = 61;

// A token record.
pub const RECORD: u64 = 61;

// A message.
pub const MESSAGE: u64 = 89;

// A reply.
pub const REPLY: u64 = 108;

// A pooled reply, before its entries.
pub const POOLED_HEAD: u64 = 35;
