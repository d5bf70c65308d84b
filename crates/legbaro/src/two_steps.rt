// Changes in two steps, for cards of version 3: an ask, and then a commit or a drop.
// An ask is lent what its change in one step is lent, and behind the table a second one of its size, which it writes; the table is only read. Until the
// ask is committed or dropped it is pending, and every other ask, change and draw is refused. Every ask takes a counter of its own, dropped or not.
ghost use Rattle.std.specs.Prelude.{◌≡◌};
ghost use Rattle.scheme.specs.Changes.{update, delete, append, load, batch};
ghost use Rattle.scheme.specs.Asks as S;
ghost use Rattle.scheme.specs.Roles.{under, may_append, may_batch, may_commit, may_delete, may_drop, may_load, may_update};
ghost use Rattle.standard.specs.Standard.{standard};

use crate::number;
use changes::Change;

// Ask for an update. Writes the card, the second table and the totals. Codes 22, 1, 2, 3, 15, 8, 18, 4, 10, 7.
#[unsafe(no_mangle)]
pub extern "C" fn legbaro_ask_update(
    role: u64,
    master: &[u8],
    card: &mut [u8],
    table: &[u8],
    second: &mut [u8],
    block: u64,
    old: &[u8],
    mark: &[u8],
    new: &[u8],
    totals: &mut [u8],
) -> u64
    ensures value { result ≡ under role may_update (S.ask_code standard master.now card.old table.now second.old (update block old.now mark.now new.now) totals.old) 22 }
    ensures card_after { card.new ≡ under role may_update (S.ask_card standard master.now card.old table.now second.old (update block old.now mark.now new.now) totals.old) card.old }
    ensures second_after { second.new ≡ under role may_update (S.ask_second standard master.now card.old table.now second.old (update block old.now mark.now new.now) totals.old) second.old }
    ensures totals_after { totals.new ≡ under role may_update (S.ask_totals standard master.now card.old table.now second.old (update block old.now mark.now new.now) totals.old) totals.old }
{
    let change = Change::Update {
        block,
        old,
        mark,
        new,
    };
    number(access::ask(role, master, card, table, second, change, totals))
}

// Ask for a deletion. Writes the card, the second table and the totals. Codes 22, 1, 2, 3, 15, 8, 18, 4, 10, 7.
#[unsafe(no_mangle)]
pub extern "C" fn legbaro_ask_delete(
    role: u64,
    master: &[u8],
    card: &mut [u8],
    table: &[u8],
    second: &mut [u8],
    block: u64,
    old: &[u8],
    mark: &[u8],
    totals: &mut [u8],
) -> u64
    ensures value { result ≡ under role may_delete (S.ask_code standard master.now card.old table.now second.old (delete block old.now mark.now) totals.old) 22 }
    ensures card_after { card.new ≡ under role may_delete (S.ask_card standard master.now card.old table.now second.old (delete block old.now mark.now) totals.old) card.old }
    ensures second_after { second.new ≡ under role may_delete (S.ask_second standard master.now card.old table.now second.old (delete block old.now mark.now) totals.old) second.old }
    ensures totals_after { totals.new ≡ under role may_delete (S.ask_totals standard master.now card.old table.now second.old (delete block old.now mark.now) totals.old) totals.old }
{
    let change = Change::Delete { block, old, mark };
    number(access::ask(role, master, card, table, second, change, totals))
}

// Ask for an append. Writes the card, the second table and the totals. Codes 22, 1, 2, 3, 8, 18, 5, 10, 7.
#[unsafe(no_mangle)]
pub extern "C" fn legbaro_ask_append(
    role: u64,
    master: &[u8],
    card: &mut [u8],
    table: &[u8],
    second: &mut [u8],
    new: &[u8],
    totals: &mut [u8],
) -> u64
    ensures value { result ≡ under role may_append (S.ask_code standard master.now card.old table.now second.old (append new.now) totals.old) 22 }
    ensures card_after { card.new ≡ under role may_append (S.ask_card standard master.now card.old table.now second.old (append new.now) totals.old) card.old }
    ensures second_after { second.new ≡ under role may_append (S.ask_second standard master.now card.old table.now second.old (append new.now) totals.old) second.old }
    ensures totals_after { totals.new ≡ under role may_append (S.ask_totals standard master.now card.old table.now second.old (append new.now) totals.old) totals.old }
{
    let change = Change::Append { new };
    number(access::ask(role, master, card, table, second, change, totals))
}

// Ask for a load. Writes the card, the second table and the totals. Codes 22, 1, 2, 3, 8, 18, 12, 5, 10, 7.
#[unsafe(no_mangle)]
pub extern "C" fn legbaro_ask_load(
    role: u64,
    master: &[u8],
    card: &mut [u8],
    table: &[u8],
    second: &mut [u8],
    blocks: &[u8],
    totals: &mut [u8],
) -> u64
    ensures value { result ≡ under role may_load (S.ask_code standard master.now card.old table.now second.old (load blocks.now) totals.old) 22 }
    ensures card_after { card.new ≡ under role may_load (S.ask_card standard master.now card.old table.now second.old (load blocks.now) totals.old) card.old }
    ensures second_after { second.new ≡ under role may_load (S.ask_second standard master.now card.old table.now second.old (load blocks.now) totals.old) second.old }
    ensures totals_after { totals.new ≡ under role may_load (S.ask_totals standard master.now card.old table.now second.old (load blocks.now) totals.old) totals.old }
{
    let change = Change::Load { new: blocks };
    number(access::ask(role, master, card, table, second, change, totals))
}

// Ask for a batch. Writes the card, the second table and the totals. Codes 22, 1, 2, 3, 8, 18, 14, 15, 4, 10, 7.
#[unsafe(no_mangle)]
pub extern "C" fn legbaro_ask_batch(
    role: u64,
    master: &[u8],
    card: &mut [u8],
    table: &[u8],
    second: &mut [u8],
    items: &[u8],
    totals: &mut [u8],
) -> u64
    ensures value { result ≡ under role may_batch (S.ask_code standard master.now card.old table.now second.old (batch items.now) totals.old) 22 }
    ensures card_after { card.new ≡ under role may_batch (S.ask_card standard master.now card.old table.now second.old (batch items.now) totals.old) card.old }
    ensures second_after { second.new ≡ under role may_batch (S.ask_second standard master.now card.old table.now second.old (batch items.now) totals.old) second.old }
    ensures totals_after { totals.new ≡ under role may_batch (S.ask_totals standard master.now card.old table.now second.old (batch items.now) totals.old) totals.old }
{
    let change = Change::Batch { items };
    number(access::ask(role, master, card, table, second, change, totals))
}

// Commit: what was asked for stands. The card takes its counter and its number of blocks, and the second table that the ask wrote is the table from then
// on. Codes 22, 1, 2, 3, 19.
#[unsafe(no_mangle)]
pub extern "C" fn legbaro_commit(role: u64, card: &mut [u8]) -> u64
    ensures value { result ≡ under role may_commit (S.settle_code card.old) 22 }
    ensures card_after { card.new ≡ under role may_commit (S.commit_card card.old) card.old }
{
    number(access::commit(role, card))
}

// Drop: what was asked for is given up, and the table stays the standing one. The counter that the ask took is not taken again. Codes 22, 1, 2, 3, 19.
#[unsafe(no_mangle)]
pub extern "C" fn legbaro_drop(role: u64, card: &mut [u8]) -> u64
    ensures value { result ≡ under role may_drop (S.settle_code card.old) 22 }
    ensures card_after { card.new ≡ under role may_drop (S.drop_card card.old) card.old }
{
    number(access::drop(role, card))
}
