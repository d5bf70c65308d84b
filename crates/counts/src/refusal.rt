// Why a call is turned away, and the number that it then returns.
ghost use Rattle.std.specs.Prelude.{◌≡◌};
ghost use Rattle.counts.specs.Refused as R;

use crate::codes;
use std::error::Error;
use std::fmt;

// A refusal, in the order of the codes.
#[derive(Clone, Copy, Debug, PartialEq, Eq)]
pub enum Refusal {
    // A buffer has another length than the call asks.
    WrongLength,
    // A card, message or reply of no version that there is, or not of its size; an ask in version 1 or 2.
    WrongHeader,
    // A field, or a number that the caller gives, is outside its limits.
    OutOfLimits,
    // A block number is 0 or above n.
    NoSuchBlock,
    // An append or a load that would take n past its maximum.
    FileFull,
    // A draw after the last token.
    NoTokenLeft,
    // An unused record does not open: that of this token, the lowest such.
    BadRecord(u32),
    // A change, ask or draw while a drawn token is not judged.
    TokenOpen,
    // A judgement, or asking the cause, while no token is drawn.
    NoneOpen,
    // A change or ask with the last counter issued at its maximum.
    CounterAtMost,
    // A load of no bytes, or of a length that B does not divide.
    NotWholeBlocks,
    // More positions than the maximum.
    TooManyPositions,
    // A batch of another size or kind, or with numbers that do not rise.
    BadBatch,
    // A mark above 1.
    BadMark,
    // A date or a minute outside the limits.
    BadTime,
    // A draw at a time that the plan does not allow.
    OutsideWindows,
    // A change, ask or draw while a change is pending.
    ChangePending,
    // A commit or drop while none is.
    NonePending,
    // A sheet for more damaged rows than there are rows.
    TooManyDamaged,
    // A role that may not make the call.
    NotPermitted,
    // A pool of too few or too many files, or with an id that occurs twice.
    BadPool,
    // A group of too few or too many blocks; a lost block named twice, or one that is not in the group.
    BadGroup,
    // More blocks lost than there are parity blocks.
    TooManyLost,
}

impl Refusal {
    // The number that the call returns: the code, and 256 times the token where there is one.
    pub fn number(self) -> u64
        ensures { result ≡ R.number self }
    {
        match self {
            Refusal::WrongLength => codes::WRONG_LENGTH,
            Refusal::WrongHeader => codes::WRONG_HEADER,
            Refusal::OutOfLimits => codes::OUT_OF_LIMITS,
            Refusal::NoSuchBlock => codes::NO_SUCH_BLOCK,
            Refusal::FileFull => codes::FILE_FULL,
            Refusal::NoTokenLeft => codes::NO_TOKEN_LEFT,
            Refusal::BadRecord(token) => codes::BAD_RECORD + 256 * token as u64,
            Refusal::TokenOpen => codes::TOKEN_OPEN,
            Refusal::NoneOpen => codes::NONE_OPEN,
            Refusal::CounterAtMost => codes::COUNTER_AT_MOST,
            Refusal::NotWholeBlocks => codes::NOT_WHOLE_BLOCKS,
            Refusal::TooManyPositions => codes::TOO_MANY_POSITIONS,
            Refusal::BadBatch => codes::BAD_BATCH,
            Refusal::BadMark => codes::BAD_MARK,
            Refusal::BadTime => codes::BAD_TIME,
            Refusal::OutsideWindows => codes::OUTSIDE_WINDOWS,
            Refusal::ChangePending => codes::CHANGE_PENDING,
            Refusal::NonePending => codes::NONE_PENDING,
            Refusal::TooManyDamaged => codes::TOO_MANY_DAMAGED,
            Refusal::NotPermitted => codes::NOT_PERMITTED,
            Refusal::BadPool => codes::BAD_POOL,
            Refusal::BadGroup => codes::BAD_GROUP,
            Refusal::TooManyLost => codes::TOO_MANY_LOST,
        }
    }
}

impl fmt::Display for Refusal {
    fn fmt<W: fmt::Write>(&self, f: &mut fmt::Formatter<W>) -> fmt::Result {
        match self {
            Refusal::WrongLength => f.write_str("a buffer has another length than the call asks"),
            Refusal::WrongHeader => f.write_str(
                "no version that there is, or another size than the version's",
            ),
            Refusal::OutOfLimits => f.write_str("a number is outside its limits"),
            Refusal::NoSuchBlock => f.write_str("no such block"),
            Refusal::FileFull => f.write_str("the file is full"),
            Refusal::NoTokenLeft => f.write_str("no token is left"),
            Refusal::BadRecord(token) => write!(f, "record {token} does not open"),
            Refusal::TokenOpen => f.write_str("a token is open"),
            Refusal::NoneOpen => f.write_str("no token is open"),
            Refusal::CounterAtMost => f.write_str("the counter is at its maximum"),
            Refusal::NotWholeBlocks => f.write_str("not whole blocks"),
            Refusal::TooManyPositions => f.write_str("too many positions"),
            Refusal::BadBatch => f.write_str("not a batch"),
            Refusal::BadMark => f.write_str("a mark above 1"),
            Refusal::BadTime => f.write_str("no such date or minute"),
            Refusal::OutsideWindows => f.write_str("outside every window"),
            Refusal::ChangePending => f.write_str("a change is pending"),
            Refusal::NonePending => f.write_str("no change is pending"),
            Refusal::TooManyDamaged => f.write_str("more damaged rows than rows"),
            Refusal::NotPermitted => f.write_str("the role may not do this"),
            Refusal::BadPool => f.write_str("not a pool of files"),
            Refusal::BadGroup => f.write_str("not a group of blocks"),
            Refusal::TooManyLost => f.write_str("more blocks lost than parity blocks"),
        }
    }
}

impl Error for Refusal {}
