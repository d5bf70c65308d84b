// A load of many blocks, position by position: the new columns of the rows drawn are hashed, as set-up hashes all, and the walks back are counted alone.
ghost use Rattle.std.specs.Prelude.{◌≡◌, true, false};
ghost use Rattle.chacha20.specs.ChaCha20.{key_words};
ghost use Rattle.permutation.specs.Rounds.{half};
ghost use Rattle.permutation.specs.Table.{Tabled};
ghost use Rattle.tokens.specs.Keyed.{token_key, Done};
ghost use Rattle.token_updates.specs.Runs.{firsts};

use block_changes::Several;
use hash_queue::Queue;

// Whether this way takes less than block by block: a table of so many entries stands, and there are eight blocks for each position. A walk forward waits for
// each of its turns, and what some eight to twelve walks back gain by being counted alone makes up for one.
pub fn dense(changes: block_changes::BlockChanges, entries: usize) -> bool
    ensures { result ≡ true → changes.listed ≡ false }
{
    if changes.listed {
        return false;
    }
    if entries == 0 {
        return false;
    }
    changes.positions <= changes.count / 8
}

// The digest x after blocks are added, all of them live, under the draw key k, and its totals. The table is empty, or has all values of the
// round function under k; the queue starts over.
pub fn by_positions(
    k: [u8; 32],
    table: &[u16],
    z: hmac::Key,
    i: counts::Token,
    several: &Several,
    x: [u8; 32],
    queue: &mut Queue,
) -> counts::DigestTotals
    requires { (several.now.changes.listed ≡ false) × Tabled (key_words k) (half several.now.changes.rows) table.now }
    ensures { Done k (token_key z i.0) several.now.changes.rows several.now.changes.positions (firsts several.now.changes several.now.bytes.now several.now.changes.count) x result }
{
    let changes = several.changes;
    let words = chacha20::key_words(&k);
    let c = tokens::token_key(z, i);
    let live = [0u8; 1];
    let whole = (changes.count * changes.size) as usize;
    let before = changes.first - 1;
    let span = digests::Span {
        rows: changes.rows,
        size: changes.size,
        count: changes.count,
        mark: records::marks_in(changes.version),
        step: 0,
    };
    let added = digests::Blocks::new(span, before, &several.bytes[..whole], &live);
    let grown = added.grown(k, c, table, changes.positions, x, queue);
    let digest = grown.digest;
    let turns = cycle_walks::turns_back(words, table, changes.rows, before, changes.count);
    counts::DigestTotals {
        digest,
        turns,
        hashes: grown.hashes,
    }
}
