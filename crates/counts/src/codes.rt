// The codes of refusals and the verdict of a rejected reply, in the order of their numbers.

// A buffer has another length than the call asks.
pub const WRONG_LENGTH: u64 = 1;

// A card, message or reply of no version that there is, or not of its size; an ask in version 1 or 2.
pub const WRONG_HEADER: u64 = 2;

// A field, or a number that the caller gives, is outside its limits.
pub const OUT_OF_LIMITS: u64 = 3;

// A block number is 0 or above n.
pub const NO_SUCH_BLOCK: u64 = 4;

// An append or a load that would take n past its maximum.
pub const FILE_FULL: u64 = 5;

// A draw after the last token.
pub const NO_TOKEN_LEFT: u64 = 6;

// An unused record does not open; the lowest such token comes with the code.
pub const BAD_RECORD: u64 = 7;

// A change, ask or draw while a drawn token is not judged.
pub const TOKEN_OPEN: u64 = 8;

// A judgement, or asking the cause, while no token is drawn.
pub const NONE_OPEN: u64 = 9;

// A change or ask with the last counter issued at its maximum.
pub const COUNTER_AT_MOST: u64 = 10;

// The verdict on a reply that does not prove possession.
pub const REJECTED: u64 = 11;

// A load of no bytes, or of a length that B does not divide.
pub const NOT_WHOLE_BLOCKS: u64 = 12;

// More positions than the maximum.
pub const TOO_MANY_POSITIONS: u64 = 13;

// A batch of another size or kind, or with numbers that do not rise.
pub const BAD_BATCH: u64 = 14;

// A mark above 1.
pub const BAD_MARK: u64 = 15;

// A date or a minute outside the limits.
pub const BAD_TIME: u64 = 16;

// A draw at a time that the plan does not allow.
pub const OUTSIDE_WINDOWS: u64 = 17;

// A change, ask or draw while a change is pending.
pub const CHANGE_PENDING: u64 = 18;

// A commit or drop while none is.
pub const NONE_PENDING: u64 = 19;

// A sheet for more damaged rows than there are rows.
pub const TOO_MANY_DAMAGED: u64 = 21;

// A role that may not make the call.
pub const NOT_PERMITTED: u64 = 22;

// A pool of too few or too many files, or with an id that occurs twice.
pub const BAD_POOL: u64 = 23;

// A group of too few or too many blocks; a lost block named twice, or one that is not in the group.
pub const BAD_GROUP: u64 = 24;

// More blocks lost than there are parity blocks.
pub const TOO_MANY_LOST: u64 = 25;
