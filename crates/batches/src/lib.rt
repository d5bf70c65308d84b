// The items of a batch: read where they lie, and checked. An item is a kind, the number of a block, its old block with its mark behind it, none in
// version 1, and its new block.
// Every function equals a definition of the scheme's Batches or of specs/. Nothing is assumed.

#![tactic(auto)]

ghost use Rattle.std.specs.Prelude.{◌≡◌, [], ◌∷◌, ◌+◌, ◌*◌, ◌≤◌, ◌<◌, eqb, length, take};
ghost use Rattle.counts.specs.Limits.{most_block_bytes, most_items};
ghost use Rattle.counts.specs.Refused.{code_in};
ghost use Rattle.scheme.specs.Checks.{first, within};
ghost use Rattle.scheme.specs.Marks.{marks_in, marks_fit};
ghost use Rattle.scheme.specs.Batches as S;
ghost use Rattle.cards.specs.Fields.{card_of};
ghost use Rattle.batches.specs.Items.{item_in, item_checks, batch_checks};

use counts::refusal::Refusal;

// The bytes of an item: kind 1, block number 4, old block, mark, new block.
pub fn item_bytes(version: u64, size: u64) -> u64
    requires { size ≤ most_block_bytes }
    ensures { (result ≡ S.item_size version size) × (1 ≤ result) }
{
    5 + size + records::marks_in(version) + size
}

// So many items where they lie, end to end, in a file of a version and a block size.
#[derive(Clone, Copy)]
pub struct Items<'a> {
    pub version: u64,
    pub size: u64,
    pub count: u64,
    pub bytes: &'a [u8],
    pub ghost small: { size ≤ most_block_bytes },
    pub ghost few: { count ≤ most_items },
    pub ghost whole: { count * S.item_size version size ≤ length bytes.now },
}

impl<'a> Items<'a> {
    // Where item e begins.
    pub fn at(self, e: u64) -> usize
        requires { e < self.count }
        ensures { result ≡ e * S.item_size self.entry.version self.entry.size }
    {
        (e * item_bytes(self.version, self.size)) as usize
    }

    // Whether item e is an update; else it is a deletion.
    pub fn is_update(self, e: u64) -> bool
        requires { e < self.count }
        ensures { result ≡ eqb (item_in self.entry.version self.entry.size e self.entry.bytes.now).kind 1 }
    {
        let a = self.at(e);
        self.bytes[a] == 1
    }

    // The number of the block that item e is of.
    pub fn number(self, e: u64) -> counts::Block
        requires { e < self.count }
        ensures { result.0 ≡ (item_in self.entry.version self.entry.size e self.entry.bytes.now).number }
    {
        let a = self.at(e);
        counts::Block(octets::be::<4>(self.bytes, a + 1))
    }

    // The mark of item e's old block, 0 where marks have no byte.
    pub fn mark(self, e: u64) -> u8
        requires { e < self.count }
        ensures { take (marks_in self.entry.version) (result ∷ []) ≡ (item_in self.entry.version self.entry.size e self.entry.bytes.now).mark }
    {
        if records::marks_in(self.version) == 0 {
            return 0;
        }
        let a = self.at(e);
        self.bytes[a + 5 + self.size as usize]
    }

    // Whether item e is an update or a deletion.
    fn kind_fits(self, e: u64) -> bool
        requires { e < self.count }
        ensures { result ≡ within 1 2 (item_in self.entry.version self.entry.size e self.entry.bytes.now).kind }
    {
        let a = self.at(e);
        (1 <= self.bytes[a]) & (self.bytes[a] <= 2)
    }

    // Whether the mark of item e is 0 or 1.
    fn mark_fits(self, e: u64) -> bool
        requires { e < self.count }
        ensures { result ≡ marks_fit (item_in self.entry.version self.entry.size e self.entry.bytes.now).mark }
    {
        let b = self.at(e) + 5 + self.size as usize;
        let d = b + records::marks_in(self.version) as usize;
        records::marks_fit(&self.bytes[b..d])
    }

    // Whether every item is an update or a deletion.
    fn kinds_fit(self) -> bool
        ensures { result ≡ S.kinds_fit (S.items_from self.entry.version self.entry.size self.entry.count self.entry.bytes.now) }
    {
        (0..self.count).all(|e| self.kind_fits(e))
    }

    // Whether the mark of every item is 0 or 1.
    fn marks_fit(self) -> bool
        ensures { result ≡ S.item_marks_fit (S.items_from self.entry.version self.entry.size self.entry.count self.entry.bytes.now) }
    {
        (0..self.count).all(|e| self.mark_fits(e))
    }

    // Whether the number of every item is that of a block of a file of n blocks.
    fn numbers_fit(self, n: u64) -> bool
        ensures { result ≡ S.numbers_fit n (S.items_from self.entry.version self.entry.size self.entry.count self.entry.bytes.now) }
    {
        (0..self.count).all(|e| records::within(1, n, self.number(e).0))
    }

    // Whether the numbers of the items, at least one, rise from each to the next.
    fn rising(self) -> bool
        requires { 1 ≤ self.count }
        ensures { result ≡ S.rising (S.items_from self.entry.version self.entry.size self.entry.count self.entry.bytes.now) }
    {
        let mut last = self.number(0).0;
        for e in 1..self.count {
            let m = self.number(e);
            if m.0 <= last {
                return false;
            }
            last = m.0;
        }
        true
    }

    // Refuses items, at least one, of a file of n blocks: another kind or numbers that do not rise, then a mark above 1, then a number that is 0 or above n.
    fn check(self, n: u64) -> Result<(), Refusal>
        requires { 1 ≤ self.count }
        ensures { code_in result ≡ first 0 (item_checks n (S.items_from self.entry.version self.entry.size self.entry.count self.entry.bytes.now)) }
    {
        let kinds = self.kinds_fit();
        if !kinds {
            return Err(Refusal::BadBatch);
        }
        let rise = self.rising();
        if !rise {
            return Err(Refusal::BadBatch);
        }
        let low = self.marks_fit();
        if !low {
            return Err(Refusal::BadMark);
        }
        let numbers = self.numbers_fit(n);
        if !numbers {
            return Err(Refusal::NoSuchBlock);
        }
        Ok(())
    }
}

// Refuses a batch for its items alone: no item, more than 64, a length that an item's does not divide, another kind, or numbers that do not rise; then a
// mark above 1; then a number that is 0 or above n.
pub fn check_batch(c: cards::Card, items: &[u8]) -> Result<(), Refusal>
    requires { c.block_bytes ≤ most_block_bytes }
    ensures { code_in result ≡ first 0 (batch_checks (card_of c) items.now) }
{
    let each = item_bytes(c.version, c.block_bytes);
    let long = items.len() as u64;
    if long % each != 0 {
        return Err(Refusal::BadBatch);
    }
    let count = long / each;
    if !records::within(1, counts::limits::MOST_ITEMS, count) {
        return Err(Refusal::BadBatch);
    }
    let batch = Items {
        version: c.version,
        size: c.block_bytes,
        count,
        bytes: items,
    };
    batch.check(c.blocks)
}
