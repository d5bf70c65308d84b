// The call that judges a pooled reply on the cards of several files. A call that is turned away leaves every buffer.
// Every function equals a definition of the scheme's Pools at the standard primitives. Nothing is assumed.
// Cards lie end to end and are walked by their length fields, from the front, once for each thing that is asked of all of them.

#![tactic(auto)]

ghost use Rattle.std.specs.Prelude.{◌≡◌, true, false, ◌&&◌, ◌+◌, ◌*◌, ◌≤◌, ◌∷◌, eqb, length, take, drop, replicate, IfOk, MatchOption};
ghost use Rattle.std.specs.Iterator.{YieldsFirstBy, item_count};
ghost use Rattle.octets.specs.Octets.{of_be, part};
ghost use Rattle.octets.specs.Octets as O;
ghost use Rattle.counts.specs.Sizes.{record_size, pooled_head, pooled_entry};
ghost use Rattle.counts.specs.Refused.{code_in, code_of};
ghost use Rattle.scheme.specs.Checks.{first};
ghost use Rattle.scheme.specs.Records.{card_head};
ghost use Rattle.scheme.specs.Table.{value};
ghost use Rattle.scheme.specs.Judging.{opened_body};
ghost use Rattle.scheme.specs.Pools as S;
ghost use Rattle.scheme.specs.Pools.{cut_fault, cut, read_all, every};
ghost use Rattle.standard.specs.Standard.{standard};
ghost use Rattle.cards.specs.Fields.{card_of};
ghost use Rattle.judging.specs.Causes.{verdict_in};
ghost use Rattle.pools.specs.Drawn.{drawn_checks};

use counts::refusal::Refusal;
use counts::{lengths, limits, sizes};
use judging::Verdict;

pub mod gathering;

// Cards that lie end to end, the last one ending with the bytes, whose heads fit.
#[derive(Clone, Copy)]
struct Cards<'a> {
    bytes: &'a [u8],
    ghost whole: { cut_fault bytes.now ≡ 0 },
    ghost heads: { every card_head (cut bytes.now) ≡ true },
}

// What is asked of every card in one pass: whether its numbers are within their limits, and whether a token is open.
#[derive(Clone, Copy)]
struct Answers {
    fit: bool,
    drawn: bool,
}

// The first of cards that lie end to end, and the others.
fn split_first(bytes: &[u8]) -> (&[u8], &[u8])
    requires { (cut_fault bytes.now ≡ 0) × (1 ≤ length bytes.now) }
    ensures parts { cut bytes.now ≡ result.0.now ∷ cut result.1.now }
    ensures whole { cut_fault result.1.now ≡ 0 }
    ensures long { (43 ≤ length result.0.now) × (length result.0.now + length result.1.now ≡ length bytes.now) }
{
    bytes.split_at(2 + octets::be::<2>(bytes, 0) as usize)
}

// Refuses cards that do not lie end to end: WrongHeader for a length field that no card has, WrongLength for a rest that is shorter than its card.
fn check_cut(bytes: &[u8]) -> Result<(), Refusal>
    ensures { code_in result ≡ cut_fault bytes.now }
{
    let mut rest = bytes;
    while !rest.is_empty() {
        if rest.len() < 2 {
            return Err(Refusal::WrongLength);
        }
        let long = 2 + octets::be::<2>(rest, 0) as usize;
        let known = (long == sizes::CARD) | (long == sizes::TWO_STEP_CARD);
        if !known {
            return Err(Refusal::WrongHeader);
        }
        if rest.len() < long {
            return Err(Refusal::WrongLength);
        }
        rest = rest.split_at(long).1;
    }
    Ok(())
}

// Whether every card bears a version that there is, and has the length field and the size of that version.
fn heads_fit(bytes: &[u8]) -> bool
    requires { cut_fault bytes.now ≡ 0 }
    ensures { result ≡ every card_head (cut bytes.now) }
{
    let mut rest = bytes;
    while !rest.is_empty() {
        let (card, others) = split_first(rest);
        if !cards::head_fits(card) {
            return false;
        }
        rest = others;
    }
    true
}

// The numbers of each card in turn.
impl<'a> Iterator for Cards<'a> {
    type Item = cards::Card;

    ghost next_gives = { YieldsFirstBy card_of (λ s. read_all (cut s.bytes.now)) };

    ghost remaining = { item_count (λ s. read_all (cut s.bytes.now)) };

    fn next(&mut self) -> Option<cards::Card> {
        if self.bytes.is_empty() {
            return None;
        }
        let (card, others) = split_first(self.bytes);
        self.bytes = others;
        Some(cards::read_card(card))
    }
}

// How many cards there are.
fn count_of(cards: Cards) -> u64
    ensures { result ≡ length (cut cards.entry.bytes.now) }
{
    let mut rest = cards.bytes;
    let mut count: u64 = 0;
    while !rest.is_empty() {
        rest = split_first(rest).1;
        count += 1;
    }
    count
}

// Whether every card's numbers are within their limits, and whether a token is open on every one. Every card is looked at.
fn seen(cards: Cards) -> Answers
    ensures fit { result.fit ≡ every S.in_limits (cut cards.entry.bytes.now) }
    ensures drawn { result.drawn ≡ every S.is_open (cut cards.entry.bytes.now) }
{
    let mut all = Answers {
        fit: true,
        drawn: true,
    };
    for c in cards {
        all.fit &= cards::card_fits(c);
        all.drawn &= 0 < c.open_token;
    }
    all
}

// Whether no card is of a file. The cards lie end to end.
fn absent(bytes: &[u8], id: [u8; 8]) -> bool
    requires { cut_fault bytes.now ≡ 0 }
    ensures { result ≡ S.absent id (read_all (cut bytes.now)) }
{
    let mut left = bytes;
    while !left.is_empty() {
        let (card, others) = split_first(left);
        if octets::same(&id, &card[3..11]) {
            return false;
        }
        left = others;
    }
    true
}

// Whether the cards are of different files.
fn distinct(cards: Cards) -> bool
    ensures { result ≡ S.distinct (read_all (cut cards.entry.bytes.now)) }
{
    let mut rest = cards.bytes;
    while !rest.is_empty() {
        let (card, others) = split_first(rest);
        if !absent(others, octets::bytes::<8>(card, 3)) {
            return false;
        }
        rest = others;
    }
    true
}

// Refuses cards: OutOfLimits for a number outside its limits, BadPool for fewer than two cards, more than sixteen or two of one file, NoneOpen where no
// token is open on one of them.
fn check_drawn(cards: Cards) -> Result<(), Refusal>
    ensures { code_in result ≡ first 0 (drawn_checks cards.entry.bytes.now) }
{
    let all = seen(cards);
    if !all.fit {
        return Err(Refusal::OutOfLimits);
    }
    if !records::within(limits::LEAST_POOLED, limits::MOST_POOLED, count_of(cards)) {
        return Err(Refusal::BadPool);
    }
    if !distinct(cards) {
        return Err(Refusal::BadPool);
    }
    if !all.drawn {
        return Err(Refusal::NoneOpen);
    }
    Ok(())
}

// What a pooled judging is lent, its master and its cards, or why it is turned away.
fn lent<'a, 'b>(master: &'a [u8], bytes: &'b [u8]) -> Result<(&'a [u8; 32], Cards<'b>), Refusal>
    ensures code { code_of result ≡ S.pool_fault master.now bytes.now }
    ensures kept { IfOk result (λ p. (p.0.now ≡ master.now) × (p.1.bytes.now ≡ bytes.now)) }
{
    check_cut(bytes)?;
    let Ok(master) = <&[u8; 32]>::try_from(master) else {
        return Err(Refusal::WrongLength);
    };
    if !heads_fit(bytes) {
        return Err(Refusal::WrongHeader);
    }
    let cards = Cards { bytes };
    check_drawn(cards)?;
    Ok((master, cards))
}

// The record in a card's 75 bytes of a pooled reply.
fn record_in(entry: &[u8; 75]) -> &[u8; 63]
    ensures { result.now ≡ drop 12 entry.now }
{
    entry.last_chunk().unwrap()
}

// The first 75 bytes of the parts of a pooled reply, and the others.
fn split_part(parts: &[u8]) -> (&[u8; 75], &[u8])
    requires { 75 ≤ length parts.now }
    ensures { (result.0.now ≡ take 75 parts.now) × (result.1.now ≡ drop 75 parts.now) }
{
    parts.split_first_chunk().unwrap()
}

// What a card's 75 bytes of a pooled reply open to, id, i and record: the token where they pass as for single judging. The key of the file is computed only
// where the clear bytes fit.
fn passes(master: &[u8; 32], c: cards::Card, entry: &[u8; 75]) -> Option<[u8; 32]>
    ensures { MatchOption result (S.passes standard master.now (card_of c) entry.now ≡ false) (λ x. (S.passes standard master.now (card_of c) entry.now ≡ true) × (x ≡ value (opened_body standard master.now (card_of c) (part 12 record_size entry.now)))) }
{
    let rec = record_in(entry);
    let head = records::head_fits(rec, lengths::RECORD, c.version);
    let i = octets::be::<4>(entry, 8);
    let names = judging::names_fit(c.id, c.open_token, octets::bytes::<8>(entry, 0), i, rec);
    let clear = head & names & (octets::be::<8>(rec, 3) == c.counter);
    if !clear {
        return None;
    }
    let k = tokens::sealing_key(master, c.id);
    judging::opened(k, c.counter, c.open_token, rec)
}

// Whether the xor of the opened tokens is the one that a pooled reply tells. Every byte is looked at before the answer.
fn is_sum(sum: [u8; 32], reply: &[u8]) -> bool
    requires { pooled_head ≤ length reply.now }
    ensures { result ≡ O.same sum (part 5 32 reply.now) }
{
    octets::same(&sum, &reply[5..37])
}

// Whether every card's part of a pooled reply passes, and the xor of the opened tokens is the one that the reply tells. Stops at the first part that does
// not pass.
fn all_pass(master: &[u8; 32], cards: Cards, reply: &[u8]) -> bool
    requires { length reply.now ≡ pooled_head + pooled_entry * length (cut cards.bytes.now) }
    ensures { result ≡ (S.all_pass standard master.now (read_all (cut cards.entry.bytes.now)) (drop pooled_head reply.now) && O.same (S.pool_sum standard master.now (replicate 32 0) (read_all (cut cards.entry.bytes.now)) (drop pooled_head reply.now)) (part 5 32 reply.now)) }
{
    let mut sum = [0u8; 32];
    let mut parts = reply.split_at(sizes::POOLED_HEAD).1;
    for c in cards {
        let (entry, others) = split_part(parts);
        let Some(x) = passes(master, c, entry) else {
            return false;
        };
        let more = octets::xor(sum, x);
        sum = more;
        parts = others;
    }
    is_sum(sum, reply)
}

// Whether a pooled reply is accepted on cards, up to sixteen.
fn pool_fits(master: &[u8; 32], cards: Cards, reply: &[u8]) -> bool
    requires { length (cut cards.bytes.now) ≤ 16 }
    ensures { result ≡ S.pool_fits standard master.now (read_all (cut cards.entry.bytes.now)) reply.now }
{
    let count = count_of(cards);
    let long = lengths::POOLED_HEAD + sizes::POOLED_ENTRY_BYTES * count;
    if reply.len() as u64 != 2 + long {
        return false;
    }
    if !records::head_fits(reply, long, 1) {
        return false;
    }
    if octets::be::<2>(reply, 3) != count {
        return false;
    }
    all_pass(master, cards, reply)
}

// The bytes of the card that begins at an offset: two for its length field, and as many as that says.
fn long_at(cards: &[u8], at: usize) -> usize
    requires { at + 2 ≤ length cards.now }
    ensures { (result ≡ 2 + of_be (part at 2 cards.now)) × (result ≤ 65537) }
{
    2 + octets::be::<2>(cards, at) as usize
}

// Closes the draw of every card: writes each with no token open, and alters nothing else.
fn close_all(cards: &mut [u8])
    requires { (cut_fault cards.old ≡ 0) × (every card_head (cut cards.old) ≡ true) }
    ensures { cards.new ≡ S.closed_all (cut cards.old) }
{
    let mut at: usize = 0;
    while at < cards.len() {
        let end = at + long_at(cards, at);
        let c = cards::read_card(&cards[at..end]);
        let after = cards::turned(c, c.next, 0);
        cards::write_card(&mut cards[at..end], after);
        at = end;
    }
}

// Judge pool: the verdict on a pooled reply of any length, and writes every card with no token open; or a refusal, which leaves every card.
pub fn judge_pool(master: &[u8], cards: &mut [u8], reply: &[u8]) -> Result<Verdict, Refusal>
    ensures value { verdict_in result ≡ S.pool_code standard master.now cards.old reply.now }
    ensures cards_after { cards.new ≡ S.pool_cards standard master.now cards.old reply.now }
{
    let (master, pool) = lent(master, cards)?;
    let fits = pool_fits(master, pool, reply);
    close_all(cards);
    if fits {
        Ok(Verdict::Accepted)
    } else {
        Ok(Verdict::Rejected)
    }
}
