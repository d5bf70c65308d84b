// Resealing: the unused records of a table, each opened, its token taken through the block changes of a call, and sealed at the counter behind the last
// issued; and the turns and block hashes that all of them take.
// Every function equals a definition of specs/ or of the scheme's Table and Totals at the standard primitives. Nothing is assumed.
// The scratch space of a token is made once a call and lent to every token. A block change that comes alone needs none.

#![tactic(auto)]

ghost use Rattle.std.specs.Prelude.{◌≡◌, true, List, ℕ, ◌+◌, ◌*◌, ◌-◌, ◌≤◌, ◌<◌, length, false};
ghost use Rattle.octets.specs.Octets.{put};
ghost use Rattle.counts.specs.Sizes.{record_size};
ghost use Rattle.counts.specs.Limits.{most_tokens, most_counter};
ghost use Rattle.scheme.specs.Records.{record_at};
ghost use Rattle.scheme.specs.Table as T;
ghost use Rattle.scheme.specs.Totals.{token_turns, token_hashes, change_turns, change_hashes};
ghost use Rattle.standard.specs.Standard.{standard};
ghost use Rattle.cards.specs.Fields.{card_of};
ghost use Rattle.tokens.specs.Keyed.{Keyed, token_key};
ghost use Rattle.block_changes.specs.BlockChanges.{items_of, alone, Lent};
ghost use Rattle.reseals.specs.Resealed.{Opens, Shaped, resealed_under};

use std::slice::from_mut;
use token_updates::Scratch;

// Reseals record i, which opens: its token is opened, changed and sealed in the card's version at the counter behind the last issued. The other records
// keep their bytes. Answers the totals of the change.
fn reseal_one(
    keys: tokens::Keys,
    c: cards::Card,
    changes: block_changes::BlockChanges,
    old_mark: &[u8],
    old: &[u8],
    new_mark: &[u8],
    new: &[u8],
    i: counts::Token,
    table: &mut [u8],
    scratch: &mut [Scratch],
) -> counts::Totals
    requires room { alone changes ≡ false → 1 ≤ length scratch.old }
    requires version_bound { (c.version < 256) × (c.last < most_counter) × Shaped c changes × Lent changes old_mark.now old.now new_mark.now new.now }
    requires le_i { (1 ≤ i.0) × (i.0 ≤ most_tokens) × (i.0 * record_size ≤ length table.old) }
    requires table_value { T.there (T.token_in standard keys.k c.version c.counter i.0 (record_at i.0 table.old)) ≡ true }
    ensures table_len { length (resealed_under keys (card_of c) (items_of changes old_mark.now old.now new_mark.now new.now) i.0 (record_at i.0 table.old)) ≡ record_size }
    ensures table_after { table.new ≡ put ((i.0 - 1) * record_size) (resealed_under keys (card_of c) (items_of changes old_mark.now old.now new_mark.now new.now) i.0 (record_at i.0 table.old)) table.old }
    ensures turns_value { (result.turns ≡ token_turns standard (token_key keys.w i.0) c.rows (items_of changes old_mark.now old.now new_mark.now new.now)) × (result.hashes ≡ token_hashes standard (token_key keys.w i.0) c.rows c.positions (items_of changes old_mark.now old.now new_mark.now new.now)) }
{
    let k = keys.k;
    let w = keys.w;
    let z = keys.z;
    let x = seals::token_in(k, c.version, c.counter, i, table);
    let y = token_updates::updated(w, z, i, changes, old_mark, old, new_mark, new, x, scratch);
    let digest = y.digest;
    seals::seal_token(k, c.version, c.last + 1, i, digest, table);
    counts::Totals {
        turns: y.turns,
        hashes: y.hashes,
    }
}

// Reseals the unused records, each of which opens, with scratch space where the change has several block changes.
fn reseal_in(
    keys: tokens::Keys,
    c: cards::Card,
    changes: block_changes::BlockChanges,
    old_mark: &[u8],
    old: &[u8],
    new_mark: &[u8],
    new: &[u8],
    table: &mut [u8],
    scratch: &mut [Scratch],
) -> counts::Totals
    requires opens { Opens keys.k c table.old × Shaped c changes × Lent changes old_mark.now old.now new_mark.now new.now }
    requires space { alone changes ≡ false → 1 ≤ length scratch.old }
    ensures by_index { (master : List ℕ) → Keyed master c.id keys → table.new ≡ T.reseal standard master (card_of c) (items_of changes old_mark.now old.now new_mark.now new.now) (c.tokens + 1 - c.next) c.next table.old }
    ensures by_index_2 { (master : List ℕ) → Keyed master c.id keys → (result.turns ≡ change_turns standard master (card_of c) (items_of changes old_mark.now old.now new_mark.now new.now)) × (result.hashes ≡ change_hashes standard master (card_of c) (items_of changes old_mark.now old.now new_mark.now new.now)) }
{
    let mut turns: u64 = 0;
    let mut hashes: u64 = 0;
    for i in c.next..c.tokens + 1 {
        let token = counts::Token(i);
        let done = reseal_one(
            keys, c, changes, old_mark, old, new_mark, new, token, table, scratch,
        );
        turns += done.turns;
        hashes += done.hashes;
    }
    counts::Totals { turns, hashes }
}

// Reseals the unused records, each of which opens, whether they draw a changed block or not. Spent records keep their bytes. Answers the turns and the
// block hashes of the change: a walk back for each of its blocks and each unused token.
pub fn reseal(
    keys: tokens::Keys,
    c: cards::Card,
    changes: block_changes::BlockChanges,
    old_mark: &[u8],
    old: &[u8],
    new_mark: &[u8],
    new: &[u8],
    table: &mut [u8],
) -> counts::Totals
    requires { Opens keys.k c table.old × Shaped c changes × Lent changes old_mark.now old.now new_mark.now new.now }
    ensures by_index { (master : List ℕ) → Keyed master c.id keys → table.new ≡ T.reseal standard master (card_of c) (items_of changes old_mark.now old.now new_mark.now new.now) (c.tokens + 1 - c.next) c.next table.old }
    ensures by_index_2 { (master : List ℕ) → Keyed master c.id keys → (result.turns ≡ change_turns standard master (card_of c) (items_of changes old_mark.now old.now new_mark.now new.now)) × (result.hashes ≡ change_hashes standard master (card_of c) (items_of changes old_mark.now old.now new_mark.now new.now)) }
{
    if block_changes::alone(changes) {
        return reseal_in(
            keys,
            c,
            changes,
            old_mark,
            old,
            new_mark,
            new,
            table,
            &mut [],
        );
    }
    let mut scratch = Scratch::new();
    reseal_in(
        keys,
        c,
        changes,
        old_mark,
        old,
        new_mark,
        new,
        table,
        from_mut(&mut scratch),
    )
}
