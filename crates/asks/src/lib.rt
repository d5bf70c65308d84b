// Changes in two steps: an ask, which writes a second table and its totals and leaves the first table, and then a commit or a drop, which are
// lent the card alone.
// A call that is turned away leaves every buffer. Every function equals a definition of the scheme's Asks at the standard primitives. Nothing is assumed.

#![tactic(auto)]

ghost use Rattle.std.specs.Prelude.{◌≡◌};
ghost use Rattle.counts.specs.Refused.{code_in};
ghost use Rattle.scheme.specs.Checks.{first};
ghost use Rattle.scheme.specs.Asks as S;
ghost use Rattle.standard.specs.Standard.{standard};
ghost use Rattle.changes.specs.Kinds.{change_of};

use counts::refusal::Refusal;

// Refuses an ask by everything but the table's records: as a change, with 2 for a card of version 1 or 2, and 1 for a second table of another size than
// the first's. Writes nothing.
fn check(
    master: &[u8],
    card: &[u8],
    table: &[u8],
    second: &[u8],
    change: changes::Change,
    totals: &[u8],
) -> Result<(), Refusal>
    ensures { code_in result ≡ first 0 (S.ask_checks standard master.now card.now table.now second.now (change_of change.entry) totals.now) }
{
    let lent = changes::lent_fits(master, totals);
    if !lent {
        return Err(Refusal::WrongLength);
    }
    cards::check_head(card)?;
    let c = cards::read_card(card);
    if c.version != 3 {
        return Err(Refusal::WrongHeader);
    }
    let fits = cards::card_fits(c);
    if !fits {
        return Err(Refusal::OutOfLimits);
    }
    if second.len() as u64 != c.tokens * counts::sizes::RECORD_BYTES {
        return Err(Refusal::WrongLength);
    }
    changes::late(c, table, change)
}

// An ask: the refusal, the card, the second table and the totals. A refusal leaves all three. The standing table is only read. Nothing is written until
// every unused record is known to open; then the second table is the standing one, spent records too, with the unused ones resealed.
pub fn ask(
    master: &[u8],
    card: &mut [u8],
    table: &[u8],
    second: &mut [u8],
    change: changes::Change,
    totals: &mut [u8],
) -> Result<(), Refusal>
    ensures value { code_in result ≡ S.ask_code standard master.now card.old table.now second.old (change_of change.entry) totals.old }
    ensures card_after { card.new ≡ S.ask_card standard master.now card.old table.now second.old (change_of change.entry) totals.old }
    ensures second_after { second.new ≡ S.ask_second standard master.now card.old table.now second.old (change_of change.entry) totals.old }
    ensures totals_after { totals.new ≡ S.ask_totals standard master.now card.old table.now second.old (change_of change.entry) totals.old }
{
    check(master, card, table, second, change, totals)?;
    let c = cards::read_card(card);
    let id = c.id;
    let keys = tokens::file_keys(master, id);
    changes::check_table(keys, c, table)?;
    octets::copy(second, 0, table);
    let blocks = changes::reseal_for(keys, c, change, second, totals);
    cards::write_card(card, cards::asked(c, blocks));
    Ok(())
}

// Refuses a commit or a drop: for the card, then where nothing is pending. Writes nothing.
fn check_pending(card: &[u8]) -> Result<(), Refusal>
    ensures { code_in result ≡ S.settle_code card.now }
{
    cards::check_card(card)?;
    let c = cards::read_card(card);
    if c.pending == 0 {
        return Err(Refusal::NonePending);
    }
    Ok(())
}

// Commit: makes the counter and the number of blocks of the pending change the standing ones, as its table is from then on. A refusal leaves the card.
pub fn commit(card: &mut [u8]) -> Result<(), Refusal>
    ensures value { code_in result ≡ S.settle_code card.old }
    ensures card_after { card.new ≡ S.commit_card card.old }
{
    check_pending(card)?;
    let c = cards::read_card(card);
    cards::write_card(card, cards::committed(c));
    Ok(())
}

// Drop: forgets the pending change, whose counter stays issued. A refusal leaves the card.
pub fn drop(card: &mut [u8]) -> Result<(), Refusal>
    ensures value { code_in result ≡ S.settle_code card.old }
    ensures card_after { card.new ≡ S.drop_card card.old }
{
    check_pending(card)?;
    let c = cards::read_card(card);
    cards::write_card(card, cards::dropped(c));
    Ok(())
}
