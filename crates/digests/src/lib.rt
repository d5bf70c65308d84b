// The digest of all positions, which set-up seals as a token and the host answers, and what blocks that come behind others make of a digest, each with
// its totals. Blocks are hashed position by position, in a row from the newest column back to the oldest, and several at once, each with its
// mark before it where it has one.
// Every function equals a definition of specs/ or of the scheme's Tokens and Totals at the standard primitives. Nothing is assumed.

#![tactic(auto)]

ghost use Rattle.std.specs.Prelude.{◌≡◌, ◌≤◌};
ghost use Rattle.counts.specs.Limits.{most_positions};
ghost use Rattle.scheme.specs.Tokens as T;
ghost use Rattle.scheme.specs.Totals.{digest_turns, digest_hashes};
ghost use Rattle.standard.specs.Standard.{standard};
ghost use Rattle.digests.specs.Layout.{Lies, contents};

mod blocks;

pub use blocks::Blocks;

// How blocks lie: `count` blocks of `size` bytes in so many rows. The mark of a block has `mark` bytes, none in version 1 and one in the others, and lies
// `step` bytes behind that of the block before: none where one mark stands for all blocks.
#[derive(Clone, Copy)]
pub struct Span {
    pub rows: u64,
    pub size: u64,
    pub count: u64,
    pub mark: u64,
    pub step: u64,
}

// The digest of all positions under the keys k and c, over blocks and their marks: what set-up seals as a token, and what the host answers. Its totals are
// what the definition counts: a table of the round function saves no turn, and what lanes compute besides is no hash.
pub fn digest(
    k: [u8; 32],
    c: [u8; 32],
    b: Span,
    positions: u64,
    blocks: &[u8],
    marks: &[u8],
) -> counts::DigestTotals
    requires { Lies b blocks.now marks.now × (positions ≤ b.rows) × (positions ≤ most_positions) }
    ensures digest_value { result.digest ≡ T.digest standard k c b.rows positions (contents b blocks.now marks.now) }
    ensures turns_value { (result.turns ≡ digest_turns standard k b.rows positions) × (result.hashes ≡ digest_hashes standard k b.rows positions b.count) }
{
    let words = chacha20::key_words(&k);
    let mut table = [0u16; 8192];
    let entries = permutation::tabulated(words, b.rows, positions, &mut table);
    let mut queue = hash_queue::Queue::new([0; 32]);
    let all = Blocks::new(b, 0, blocks, marks);
    all.grown(k, c, &table[..entries], positions, [0; 32], &mut queue)
}
