// Several block changes, which lie in one buffer: the number of each one's block, and the hashes of what is handed over of it.
ghost use Rattle.std.specs.Prelude.{◌≡◌, List, [], ◌∷◌, ◌++◌, true, ℕ, ◌+◌, ◌≤◌, ◌<◌, length, take};
ghost use Rattle.octets.specs.Octets.{part, xors};
ghost use Rattle.counts.specs.Limits.{most_blocks};
ghost use Rattle.scheme.specs.Marks.{marks_in};
ghost use Rattle.scheme.specs.Tokens as T;
ghost use Rattle.scheme.specs.Totals.{hashes_in};
ghost use Rattle.standard.specs.Standard.{standard};
ghost use Rattle.hash_queue.specs.Waiting.{Ready, held};
ghost use Rattle.block_changes.specs.BlockChanges as I;

use crate::BlockChanges;
use hash_queue::{Kind, Queue};

// Several block changes, the buffer in which they lie, and how their messages are hashed.
#[derive(Clone, Copy)]
pub struct Several<'a> {
    pub changes: BlockChanges,
    pub bytes: &'a [u8],
    pub kind: Kind,
    pub ghost known: { I.Several changes bytes.now },
    pub ghost cut: { (kind.head ≡ 36 + marks_in changes.version) × (kind.head ≤ 37) × (kind.size ≡ changes.size) },
}

impl<'a> Several<'a> {
    // The block changes that lie in a buffer.
    pub fn new(changes: BlockChanges, bytes: &'a [u8]) -> Several<'a>
        requires { I.Several changes bytes.now }
        ensures { (result.changes ≡ changes) × (result.bytes.now ≡ bytes.now) }
    {
        let kind = Kind::new(crate::head_bytes(changes.version), changes.size as usize);
        Several {
            changes,
            bytes,
            kind,
        }
    }

    // The number of the block that change e is of.
    pub fn number_of(&self, e: u64) -> counts::Block
        requires { e < self.now.changes.count }
        ensures { (result.0 ≡ I.number_at self.now.changes self.now.bytes.now e) × (1 ≤ result.0) × (result.0 ≤ most_blocks) }
    {
        if self.changes.listed {
            let items = batches::Items {
                version: self.changes.version,
                size: self.changes.size,
                count: self.changes.count,
                bytes: self.bytes,
            };
            return items.number(e);
        }
        counts::Block(self.changes.first + e)
    }

    // How many hashes each change takes where its row is drawn: two of an item of a batch, one of an added block.
    pub fn hashes_of(&self) -> u64
        ensures { ((e : ℕ) → result ≡ hashes_in (I.several_at self.now.changes self.now.bytes.now e)) × (result ≤ 2) }
    {
        if self.changes.listed {
            return 2;
        }
        1
    }

    // Adds the hash of a block at an index, under a hash key c: of the mark, where the version has one, and the bytes of the buffer from `a` on.
    fn add_block(&self, queue: &mut Queue, c: [u8; 32], index: u64, mark: u8, a: usize)
        requires { Ready queue.old self.now.kind.form self.now.bytes.now × (a + self.now.changes.size ≤ length self.now.bytes.now) }
        ensures { Ready queue.new self.now.kind.form self.now.bytes.now × (held queue.new self.now.kind.form self.now.bytes.now ≡ xors (held queue.old self.now.kind.form self.now.bytes.now) (T.block_hash standard c index (take (marks_in self.now.changes.version) (mark ∷ []) ++ part a self.now.changes.size self.now.bytes.now))) }
    {
        let head = tokens::head_of(c, index, mark);
        let h = self.kind.head;
        queue.add(&self.kind, &head[..h], self.bytes, a);
    }

    // Adds the hashes of item e of a batch at an index: of its old block with its mark, and of its new one, live, or, where it is a deletion, of a
    // deleted block.
    fn add_correction(&self, queue: &mut Queue, c: [u8; 32], index: u64, e: u64)
        requires { Ready queue.old self.now.kind.form self.now.bytes.now × (self.now.changes.listed ≡ true) × (e < self.now.changes.count) }
        ensures { Ready queue.new self.now.kind.form self.now.bytes.now × (held queue.new self.now.kind.form self.now.bytes.now ≡ T.mixed standard c index (I.several_at self.now.changes self.now.bytes.now e) (held queue.old self.now.kind.form self.now.bytes.now)) }
    {
        let version = self.changes.version;
        let size = self.changes.size;
        let items = batches::Items {
            version: self.changes.version,
            size: self.changes.size,
            count: self.changes.count,
            bytes: self.bytes,
        };
        let a = items.at(e);
        let b = a + 5;
        let mark = items.mark(e);
        self.add_block(queue, c, index, mark, b);
        if items.is_update(e) {
            let d = b + size as usize + records::marks_in(version) as usize;
            self.add_block(queue, c, index, 0, d);
            return;
        }
        let h = crate::deleted_hash(c, index, version, size);
        queue.add_hash(h);
    }

    // Adds the hashes of what change e hands over, at an index, under a hash key c.
    pub fn add_contents(&self, queue: &mut Queue, c: [u8; 32], index: u64, e: u64)
        requires { Ready queue.old self.now.kind.form self.now.bytes.now × (e < self.now.changes.count) }
        ensures { Ready queue.new self.now.kind.form self.now.bytes.now × (held queue.new self.now.kind.form self.now.bytes.now ≡ T.mixed standard c index (I.several_at self.now.changes self.now.bytes.now e) (held queue.old self.now.kind.form self.now.bytes.now)) }
    {
        if self.changes.listed {
            self.add_correction(queue, c, index, e);
            return;
        }
        let a = (e * self.changes.size) as usize;
        self.add_block(queue, c, index, 0, a);
    }
}
