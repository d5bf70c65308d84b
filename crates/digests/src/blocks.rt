// Blocks that come behind others: how many come before one of them, the hash of one, of a row, and of the rows that all positions draw.
ghost use Rattle.std.specs.Prelude.{◌≡◌, [], ◌∷◌, ◌+◌, ◌*◌, ◌^◌, ◌≤◌, ◌<◌, length, take};
ghost use Rattle.octets.specs.Octets.{xors, part};
ghost use Rattle.counts.specs.Limits.{most_blocks};
ghost use Rattle.chacha20.specs.ChaCha20.{key_words};
ghost use Rattle.permutation.specs.Rounds.{half};
ghost use Rattle.permutation.specs.Table.{Tabled};
ghost use Rattle.scheme.specs.Tokens as T;
ghost use Rattle.scheme.specs.Totals.{digest_turns, token_hashes};
ghost use Rattle.standard.specs.Standard.{standard};
ghost use Rattle.hash_queue.specs.Waiting.{Ready, held};
ghost use Rattle.digests.specs.Layout.{Lies, Row, Located, contents, behind, place, hash_at};

use crate::Span;
use hash_queue::{Kind, Queue};

// The blocks of a buffer, which come behind `before` others that are not lent, and their marks in another; and how their messages are hashed.
#[derive(Clone, Copy)]
pub struct Blocks<'a> {
    pub span: Span,
    pub before: u64,
    pub bytes: &'a [u8],
    pub marks: &'a [u8],
    pub kind: Kind,
    pub ghost lies: { Lies span bytes.now marks.now },
    pub ghost few: { before + span.count ≤ most_blocks },
    pub ghost cut: { (kind.head ≡ 36 + span.mark) × (kind.size ≡ span.size) },
}

impl<'a> Blocks<'a> {
    // The blocks of a buffer behind `before` others.
    pub fn new(span: Span, before: u64, bytes: &'a [u8], marks: &'a [u8]) -> Blocks<'a>
        requires { Lies span bytes.now marks.now × (before + span.count ≤ most_blocks) }
        ensures { (result.span ≡ span) × (result.before ≡ before) × (result.bytes.now ≡ bytes.now) × (result.marks.now ≡ marks.now) }
    {
        let kind = Kind::new(head_length(span), span.size as usize);
        Blocks {
            span,
            before,
            bytes,
            marks,
            kind,
        }
    }

    // How many blocks of the buffer come before the one in a row and a column.
    fn place_of(&self, row: counts::Row, column: u64) -> u64
        requires { (self.now.before < column * self.now.span.rows + row.0) × (column * self.now.span.rows + row.0 ≤ most_blocks) }
        ensures { (result ≡ place self.now.span self.now.before row.0 column) × (result < most_blocks) }
    {
        let m = tokens::block_in(self.span.rows, row, column);
        m.0 - self.before - 1
    }

    // The mark of the block that e others come before, 0 where marks have no byte.
    fn mark_of(&self, e: u64) -> u8
        requires { e * self.now.span.step + self.now.span.mark ≤ length self.now.marks.now }
        ensures { take self.now.span.mark (result ∷ []) ≡ part (e * self.now.span.step) self.now.span.mark self.now.marks.now }
    {
        if self.span.mark == 0 {
            return 0;
        }
        self.marks[(e * self.span.step) as usize]
    }

    // Adds the hash of the block in a row and a column, at a position.
    fn add_block(
        &self,
        queue: &mut Queue,
        c: [u8; 32],
        row: counts::Row,
        j: counts::Position,
        column: u64,
    )
        requires { Ready queue.old self.now.kind.form self.now.bytes.now × Located self.now.span self.now.before row.0 column self.now.bytes.now self.now.marks.now × (j.0 < 2 ^ 32) }
        ensures { Ready queue.new self.now.kind.form self.now.bytes.now × (held queue.new self.now.kind.form self.now.bytes.now ≡ xors (held queue.old self.now.kind.form self.now.bytes.now) (hash_at c self.now.span self.now.before row.0 j.0 column self.now.bytes.now self.now.marks.now)) }
    {
        let index = tokens::index_of(self.span.rows, column, j);
        let e = self.place_of(row, column);
        let mark = self.mark_of(e);
        let head = tokens::head_of(c, index, mark);
        let h = self.kind.head;
        let a = (e * self.span.size) as usize;
        queue.add(&self.kind, &head[..h], self.bytes, a);
    }

    // Adds the blocks of a row at a position, from the newest column back to the column `oldest`: whatever this is, the queue has grown by the xor of
    // exactly that column's hash and all newer ones. The column `oldest` is none that the blocks before reach.
    fn add_row(
        &self,
        queue: &mut Queue,
        c: [u8; 32],
        row: counts::Row,
        j: counts::Position,
        oldest: u64,
    )
        requires { Ready queue.old self.now.kind.form self.now.bytes.now × Row self.now.span.rows row.0 × (j.0 < 2 ^ 32) × (T.columns_of self.now.span.rows self.now.before row.0 ≤ oldest) × (oldest ≤ T.columns_of self.now.span.rows (self.now.before + self.now.span.count) row.0) }
        ensures { Ready queue.new self.now.kind.form self.now.bytes.now × (held queue.new self.now.kind.form self.now.bytes.now ≡ xors (held queue.old self.now.kind.form self.now.bytes.now) (T.row_from standard c self.now.span.rows row.0 j.0 (behind self.now.before (contents self.now.span self.now.bytes.now self.now.marks.now)) oldest)) }
    {
        let newest = tokens::columns_of(self.span.rows, self.before + self.span.count, row);
        for q in (oldest..newest).rev() {
            self.add_block(queue, c, row, j, q);
        }
    }

    // What the blocks make of a digest x, under the keys k and c. The totals are those of the positions: the turns of their walks, and a hash for each
    // block of a row drawn. The table is empty, or has all values of the round function under k; the queue starts over.
    pub fn grown(
        &self,
        k: [u8; 32],
        c: [u8; 32],
        table: &[u16],
        positions: u64,
        x: [u8; 32],
        queue: &mut Queue,
    ) -> counts::DigestTotals
        requires { (positions ≤ self.now.span.rows) × Tabled (key_words k) (half self.now.span.rows) table.now }
        ensures digest_value { result.digest ≡ T.digest_after standard k c self.now.span.rows positions (T.added_from (self.now.before + 1) (contents self.now.span self.now.bytes.now self.now.marks.now)) x }
        ensures turns_value { (result.turns ≡ digest_turns standard k self.now.span.rows positions) × (result.hashes ≡ token_hashes standard k self.now.span.rows positions (T.added_from (self.now.before + 1) (contents self.now.span self.now.bytes.now self.now.marks.now))) }
    {
        let words = chacha20::key_words(&k);
        let rows = self.span.rows;
        queue.restart(x);
        let mut turns: u64 = 0;
        let mut hashes: u64 = 0;
        for drawn in 0..positions {
            let walk = permutation::forward_in(words, table, rows, drawn);
            let row = counts::Row(walk.value + 1);
            let oldest = tokens::columns_of(rows, self.before, row);
            self.add_row(queue, c, row, counts::Position(drawn + 1), oldest);
            turns += walk.turns;
            hashes += tokens::columns_of(rows, self.before + self.span.count, row) - oldest;
        }
        let digest = queue.settled(&self.kind, self.bytes);
        counts::DigestTotals {
            digest,
            turns,
            hashes,
        }
    }
}

// How many bytes are hashed before a block: those of key and index, and its mark where it has one.
fn head_length(b: Span) -> usize
    requires { b.mark ≤ 1 }
    ensures { result ≡ 36 + b.mark }
{
    36 + b.mark as usize
}
