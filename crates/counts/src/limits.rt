// The table of limits: the maximum of each number, and what a day and a week have.

// B, bytes of a block.
pub const MOST_BLOCK_BYTES: u64 = 4096;

// D, rows.
pub const MOST_ROWS: u64 = 1048576;

// R, positions, which are no more than d either.
pub const MOST_POSITIONS: u64 = 512;

// T, tokens.
pub const MOST_TOKENS: u64 = 65536;

// N, blocks.
pub const MOST_BLOCKS: u64 = 16777216;

// A counter.
pub const MOST_COUNTER: u64 = 4294967295;

// The items of a batch.
pub const MOST_ITEMS: u64 = 64;

// The files of a pool, at least.
pub const LEAST_POOLED: u64 = 2;

// And at most.
pub const MOST_POOLED: u64 = 16;

// K, data blocks of a group.
pub const MOST_DATA_BLOCKS: u64 = 48;

// P, its parity blocks.
pub const MOST_PARITY_BLOCKS: u64 = 16;

// A minute of a day.
pub const LAST_MINUTE: u64 = 1439;

// The minutes of a day.
pub const DAY_MINUTES: u64 = 1440;

// The minutes of a week.
pub const WEEK_MINUTES: u64 = 10080;
