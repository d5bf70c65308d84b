// What the block changes of a call make of a token's digest, one after the other: a walk back for each block, and where the token draws its row the
// hashes of the old and the new content; and how many turns and hashes that takes. Every function equals a definition of specs/ or of the scheme's
// Tokens and Totals at the standard primitives. Nothing is assumed.
// A block change that comes alone is a walk and the lent running hash, and needs no room. Several are walked back side by side over one table of the
// round function, where that is quicker by the number of blocks, and what is drawn is hashed as hash_queue takes it. Where such a table stands and
// very many blocks are added, those drawn are found by walks forward from the positions, as set-up finds them, and the walks back are
// counted alone. The turns of the walks back are told, and the hashes of contents; neither what fills the table nor the walks forward.

#![tactic(auto)]

ghost use Rattle.std.specs.Prelude.{◌≡◌, List, true, false, ℕ, ◌+◌, ◌*◌, ◌-◌, ◌≤◌, ◌<◌, length};
ghost use Rattle.chacha20.specs.ChaCha20.{key_words};
ghost use Rattle.permutation.specs.Rounds.{half};
ghost use Rattle.permutation.specs.Table.{Tabled};
ghost use Rattle.scheme.specs.Tokens as T;
ghost use Rattle.scheme.specs.Totals.{token_turns};
ghost use Rattle.standard.specs.Standard.{standard};
ghost use Rattle.tokens.specs.Keyed.{token_key, Done};
ghost use Rattle.hash_queue.specs.Waiting.{Ready, held};
ghost use Rattle.block_changes.specs.BlockChanges.{number_at, items_of, alone, Lent};
ghost use Rattle.token_updates.specs.Blank.{Blank};
ghost use Rattle.token_updates.specs.Runs.{firsts, Rows, Hashed, Made, Placed};

mod loads;

use block_changes::Several;
use hash_queue::Queue;

// Scratch space for several block changes: a table of the round function, where 256 walks begin and end, and what waits to be hashed.
#[derive(Clone, Copy)]
pub struct Scratch {
    table: [u16; 8192],
    starts: [u64; 256],
    ends: [u64; 256],
    queue: Queue,
}

impl Scratch {
    // Scratch space that nothing was done in.
    pub fn new() -> Scratch
        ensures { Blank result }
    {
        Scratch {
            table: [0; 8192],
            starts: [0; 256],
            ends: [0; 256],
            queue: Queue::new([0; 32]),
        }
    }
}

// Writes the rows, from 0, of as many added blocks as `starts` has places, from change `from` on: one behind the other.
fn lay_added(several: &Several, from: u64, starts: &mut [u64])
    requires { (several.now.changes.listed ≡ false) × (from + length starts.old ≤ several.now.changes.count) × (1 ≤ length starts.old) }
    ensures { Rows several.now.changes several.now.bytes.now from (length starts.new) starts.new }
{
    let rows = several.changes.rows;
    let m = several.number_of(from);
    let row = tokens::row_of(rows, m);
    let mut at = row.0 - 1;
    for start in starts.iter_mut() {
        *start = at;
        at = cycle_walks::next_row(rows, at);
    }
}

// Writes the rows, from 0, of the blocks of as many changes, from change `from` on.
fn lay_each(several: &Several, from: u64, starts: &mut [u64])
    requires { from + length starts.old ≤ several.now.changes.count }
    ensures { Rows several.now.changes several.now.bytes.now from (length starts.new) starts.new }
{
    for (e, start) in starts.iter_mut().enumerate() {
        let m = several.number_of(from + e as u64);
        let row = tokens::row_of(several.changes.rows, m);
        *start = row.0 - 1;
    }
}

// Writes where walks begin: the rows of change `from` and of those behind it, from 0.
fn lay_rows(several: &Several, from: u64, starts: &mut [u64])
    requires { (from + length starts.old ≤ several.now.changes.count) × (1 ≤ length starts.old) }
    ensures { Rows several.now.changes several.now.bytes.now from (length starts.new) starts.new }
{
    if several.changes.listed {
        lay_each(several, from, starts);
        return;
    }
    lay_added(several, from, starts);
}

// Walks back from the rows of n changes, from change `from` on: writes the positions that draw them, from 0, and answers how many turns that took.
fn walk_some(
    words: [u32; 8],
    table: &[u16],
    several: &Several,
    from: u64,
    n: usize,
    starts: &mut [u64; 256],
    ends: &mut [u64; 256],
) -> u64
    requires { (from + n ≤ several.now.changes.count) × (1 ≤ n) × (n ≤ 256) × Tabled words (half several.now.changes.rows) table.now }
    ensures upper_bound { result ≤ n * 1048576 }
    ensures by_index { (k : List ℕ) → words ≡ key_words k → Placed k several.now.changes several.now.bytes.now from n ends.new × (token_turns standard k several.now.changes.rows (firsts several.now.changes several.now.bytes.now (from + n)) ≡ token_turns standard k several.now.changes.rows (firsts several.now.changes several.now.bytes.now from) + result) }
{
    let rows = &mut starts[..n];
    lay_rows(several, from, rows);
    cycle_walks::backward_each(words, table, several.changes.rows, n, rows, ends)
}

// The hashes that block changes took so far, and the token's hash key, which is made when the first drawn block comes.
#[derive(Clone, Copy)]
struct Run {
    hashes: u64,
    c: Option<[u8; 32]>,
}

// The hash key of a token: the run's, or made now.
fn key_of(run: Run, z: hmac::Key, i: counts::Token) -> [u8; 32]
    requires { Made z i.0 run }
    ensures { result ≡ token_key z i.0 }
{
    match run.c {
        Some(c) => c,
        None => tokens::token_key(z, i),
    }
}

// Adds block change e to the queue, whose block lies in the row that position `j0` + 1 draws. Returns the run with it.
fn add_item(
    run: Run,
    z: hmac::Key,
    i: counts::Token,
    several: &Several,
    e: u64,
    j0: u64,
    queue: &mut Queue,
) -> Run
    requires several { (e < several.now.changes.count) × (j0 < several.now.changes.positions) }
    requires made { Made z i.0 run × (run.hashes ≤ e * 2) × Ready queue.old several.now.kind.form several.now.bytes.now }
    ensures made_2 { Made z i.0 result × (result.hashes ≤ (e + 1) * 2) × Ready queue.new several.now.kind.form several.now.bytes.now }
    ensures by_index { (k x : List ℕ) → j0 + 1 ≡ T.position_of standard k several.now.changes.rows (T.row_of several.now.changes.rows (number_at several.now.changes several.now.bytes.now e)) → Hashed k (token_key z i.0) several.now.changes several.now.bytes.now e x (held queue.old several.now.kind.form several.now.bytes.now) run.hashes → Hashed k (token_key z i.0) several.now.changes several.now.bytes.now (e + 1) x (held queue.new several.now.kind.form several.now.bytes.now) result.hashes }
{
    let rows = several.changes.rows;
    let c = key_of(run, z, i);
    let m = several.number_of(e);
    let column = tokens::column_of(rows, m);
    let index = tokens::index_of(rows, column, counts::Position(j0 + 1));
    several.add_contents(queue, c, index, e);
    Run {
        hashes: run.hashes + several.hashes_of(),
        c: Some(c),
    }
}

// Adds n block changes to the queue, from change `from` on, whose positions are given, from 0. Returns the run with them.
fn add_items(
    run: Run,
    z: hmac::Key,
    i: counts::Token,
    several: &Several,
    from: u64,
    ends: &[u64],
    queue: &mut Queue,
) -> Run
    requires several { from + length ends.now ≤ several.now.changes.count }
    requires made { Made z i.0 run × (run.hashes ≤ from * 2) × Ready queue.old several.now.kind.form several.now.bytes.now }
    ensures made_2 { Made z i.0 result × (result.hashes ≤ (from + length ends.now) * 2) × Ready queue.new several.now.kind.form several.now.bytes.now }
    ensures by_index { (k x : List ℕ) → Placed k several.now.changes several.now.bytes.now from (length ends.now) ends.now → Hashed k (token_key z i.0) several.now.changes several.now.bytes.now from x (held queue.old several.now.kind.form several.now.bytes.now) run.hashes → Hashed k (token_key z i.0) several.now.changes several.now.bytes.now (from + length ends.now) x (held queue.new several.now.kind.form several.now.bytes.now) result.hashes }
{
    let mut going = run;
    for (e, j0) in ends.iter().enumerate() {
        if *j0 < several.changes.positions {
            going = add_item(going, z, i, several, from + e as u64, *j0, queue);
        }
    }
    going
}

// How many of the block changes that are left are walked side by side.
fn next_of(left: u64) -> u64
    requires { 1 ≤ left }
    ensures { (1 ≤ result) × (result ≤ left) × (result ≤ 256) }
{
    left.min(256)
}

// The digest x after several block changes, block by block, under the words of the draw key, and its totals. The hash key is made where a block
// is drawn. The table is empty, or has all values of its round function; the queue starts over.
fn by_blocks(
    words: [u32; 8],
    table: &[u16],
    z: hmac::Key,
    i: counts::Token,
    several: &Several,
    x: [u8; 32],
    starts: &mut [u64; 256],
    ends: &mut [u64; 256],
    queue: &mut Queue,
) -> counts::DigestTotals
    requires { Tabled words (half several.now.changes.rows) table.now }
    ensures { (k : List ℕ) → words ≡ key_words k → Done k (token_key z i.0) several.now.changes.rows several.now.changes.positions (firsts several.now.changes several.now.bytes.now several.now.changes.count) x result }
{
    queue.restart(x);
    let mut run = Run { hashes: 0, c: None };
    let mut turns: u64 = 0;
    let mut left = several.changes.count;
    while 0 < left {
        let n = next_of(left);
        let from = several.changes.count - left;
        let walked = walk_some(words, table, several, from, n as usize, starts, ends);
        turns += walked;
        run = add_items(run, z, i, several, from, &ends[..n as usize], queue);
        left -= n;
    }
    let digest = queue.settled(&several.kind, several.bytes);
    counts::DigestTotals {
        digest,
        turns,
        hashes: run.hashes,
    }
}

// A token's digest x after several block changes, and its totals. Its key k is made once.
fn after_several(
    w: hmac::Key,
    z: hmac::Key,
    i: counts::Token,
    several: &Several,
    x: [u8; 32],
    scratch: &mut Scratch,
) -> counts::DigestTotals
    ensures { Done (token_key w i.0) (token_key z i.0) several.now.changes.rows several.now.changes.positions (firsts several.now.changes several.now.bytes.now several.now.changes.count) x result }
{
    let k = tokens::token_key(w, i);
    let words = chacha20::key_words(&k);
    let changes = several.changes;
    let entries = permutation::tabulated(words, changes.rows, changes.count, &mut scratch.table);
    if loads::dense(changes, entries) {
        return loads::by_positions(
            k,
            &scratch.table[..entries],
            z,
            i,
            several,
            x,
            &mut scratch.queue,
        );
    }
    by_blocks(
        words,
        &scratch.table[..entries],
        z,
        i,
        several,
        x,
        &mut scratch.starts,
        &mut scratch.ends,
        &mut scratch.queue,
    )
}

// A token's digest x after all block changes, and its totals, under the keys W and Z prepared. `old_mark` and `new_mark` are the marks of a change that comes alone.
// One scratch space is needed, read and written where there are several; a change that comes alone takes none.
pub fn updated(
    w: hmac::Key,
    z: hmac::Key,
    i: counts::Token,
    changes: block_changes::BlockChanges,
    old_mark: &[u8],
    old: &[u8],
    new_mark: &[u8],
    new: &[u8],
    x: [u8; 32],
    scratch: &mut [Scratch],
) -> counts::DigestTotals
    requires lent { Lent changes old_mark.now old.now new_mark.now new.now }
    requires room { alone changes ≡ false → 1 ≤ length scratch.old }
    ensures { Done (token_key w i.0) (token_key z i.0) changes.rows changes.positions (items_of changes old_mark.now old.now new_mark.now new.now) x result }
{
    let one = block_changes::alone(changes);
    if !one {
        let several = Several::new(changes, new);
        return after_several(w, z, i, &several, x, &mut scratch[0]);
    }
    let size = changes.size as usize;
    let m = counts::Block(changes.first);
    let after = tokens::Content {
        mark: new_mark,
        block: &new[..size],
    };
    if changes.fresh {
        return tokens::changed(w, z, changes.rows, changes.positions, m, None, after, i, x);
    }
    let before = tokens::Content {
        mark: old_mark,
        block: &old[..size],
    };
    tokens::changed(
        w,
        z,
        changes.rows,
        changes.positions,
        m,
        Some(before),
        after,
        i,
        x,
    )
}
