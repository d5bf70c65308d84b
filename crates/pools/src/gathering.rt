// The call by which a host makes one pooled reply of single replies that lie end to end, of 110 bytes each. A call that is turned away leaves the buffer.
// Every function equals a definition of the scheme's Pools. Nothing is assumed.
// A pooled reply is 37 bytes of its own, then 75 of each single reply: id, token number and record.
ghost use Rattle.std.specs.Prelude.{◌≡◌, [], ◌∷◌, ◌++◌, ◌+◌, ◌*◌, ◌/◌, ◌%◌, ◌≤◌, length, take, replicate};
ghost use Rattle.octets.specs.Octets.{be, put};
ghost use Rattle.counts.specs.Sizes.{reply_size, pooled_head, pooled_entry};
ghost use Rattle.counts.specs.Refused.{code_in};
ghost use Rattle.counts.specs.Lengths.{reply_length_field, pooled_head_length};
ghost use Rattle.scheme.specs.Records.{head_known};
ghost use Rattle.scheme.specs.Pools as S;
ghost use Rattle.scheme.specs.Pools.{every, singles};

use counts::refusal::Refusal;
use counts::{lengths, limits, sizes};

// Whether every reply has its length field and a version that there is.
fn heads_fit(replies: &[u8]) -> bool
    requires { length replies.now % reply_size ≡ 0 }
    ensures { result ≡ every (head_known reply_length_field) (singles replies.now) }
{
    let mut at: usize = 0;
    while at < replies.len() {
        let end = at + sizes::REPLY;
        let fits = records::head_known(&replies[at..end], lengths::REPLY);
        if !fits {
            return false;
        }
        at = end;
    }
    true
}

// Refuses a gathering: WrongLength for a length that 110 does not divide, WrongHeader for a reply of another length field or of no version that there is,
// BadPool for fewer than two or more than sixteen replies, WrongLength for another size of the pooled reply.
fn check_gather(replies: &[u8], pooled: &[u8]) -> Result<(), Refusal>
    ensures { code_in result ≡ S.gather_code replies.now pooled.now }
{
    let long = replies.len() as u64;
    if long % sizes::REPLY_BYTES != 0 {
        return Err(Refusal::WrongLength);
    }
    if !heads_fit(replies) {
        return Err(Refusal::WrongHeader);
    }
    let count = long / sizes::REPLY_BYTES;
    if !records::within(limits::LEAST_POOLED, limits::MOST_POOLED, count) {
        return Err(Refusal::BadPool);
    }
    if pooled.len() as u64 != sizes::POOLED_HEAD_BYTES + sizes::POOLED_ENTRY_BYTES * count {
        return Err(Refusal::WrongLength);
    }
    Ok(())
}

// The xor of the digests of all replies.
fn digest_sum(replies: &[u8]) -> [u8; 32]
    requires { length replies.now % reply_size ≡ 0 }
    ensures { result ≡ S.digest_sum (replicate 32 0) (singles replies.now) }
{
    let mut sum = [0u8; 32];
    let mut from: usize = 0;
    while from < replies.len() {
        let a = from + 15;
        let e = a + 32;
        octets::xor_into(&mut sum, &replies[a..e]);
        from = from + sizes::REPLY;
    }
    sum
}

// Writes the 37 bytes that a pooled reply of so many files begins with: length, version 1, their number and the xor of their digests.
fn put_front(pooled: &mut [u8], count: u64, sum: [u8; 32])
    requires { (pooled_head ≤ length pooled.old) × (count ≤ 16) }
    ensures { pooled.new ≡ put 0 (be 2 (pooled_head_length + pooled_entry * count) ++ (1 ∷ []) ++ be 2 count ++ sum) pooled.old }
{
    records::put_head(
        pooled,
        lengths::POOLED_HEAD + sizes::POOLED_ENTRY_BYTES * count,
        1,
    );
    octets::put_be::<2>(pooled, 3, count);
    octets::copy(pooled, 5, &sum);
}

// Writes id, token number and record of every reply behind the first 37 bytes, which stay.
fn put_entries(replies: &[u8], pooled: &mut [u8])
    requires { (length replies.now % reply_size ≡ 0) × (length pooled.old ≡ pooled_head + pooled_entry * (length replies.now / reply_size)) }
    ensures { pooled.new ≡ take pooled_head pooled.old ++ S.entries (singles replies.now) }
{
    let mut at: usize = 0;
    let mut to: usize = sizes::POOLED_HEAD;
    while at < replies.len() {
        let a = at + 3;
        let b = a + 12;
        let d = at + 47;
        let e = d + sizes::RECORD;
        octets::copy(pooled, to, &replies[a..b]);
        octets::copy(pooled, to + 12, &replies[d..e]);
        at = at + sizes::REPLY;
        to = to + sizes::POOLED_ENTRY;
    }
}

// Gather: writes the pooled reply of two to sixteen single replies. A refusal leaves the pooled reply's buffer.
pub fn gather(replies: &[u8], pooled: &mut [u8]) -> Result<(), Refusal>
    ensures value { code_in result ≡ S.gather_code replies.now pooled.old }
    ensures pooled_after { pooled.new ≡ S.gather_out replies.now pooled.old }
{
    check_gather(replies, pooled)?;
    let count = replies.len() as u64 / sizes::REPLY_BYTES;
    let sum = digest_sum(replies);
    put_front(pooled, count, sum);
    put_entries(replies, pooled);
    Ok(())
}
