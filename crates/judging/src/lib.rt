// The calls that judge a host's reply, and that say why it is rejected. A call that is turned away leaves every buffer.
// Every function equals a definition of the scheme's Calls or Judging at the standard primitives. Nothing is assumed.

#![tactic(auto)]

ghost use Rattle.std.specs.Prelude.{◌≡◌, ◌&&◌, ◌≤◌, Some, eqb, length, drop, IfOk};
ghost use Rattle.octets.specs.Octets as O;
ghost use Rattle.octets.specs.Octets.{of_be, part};
ghost use Rattle.counts.specs.Refused.{code_of};
ghost use Rattle.scheme.specs.Calls as S;
ghost use Rattle.scheme.specs.Records.{head_fits, read_card};
ghost use Rattle.scheme.specs.Table.{body_in};
ghost use Rattle.scheme.specs.Judging as J;
ghost use Rattle.standard.specs.Standard.{standard};
ghost use Rattle.cards.specs.Fields.{card_of};
ghost use Rattle.judging.specs.Causes.{cause_of, cause_in, verdict_number, verdict_in, body_of, sealed_cause};

use counts::refusal::Refusal;
use counts::{lengths, sizes};

// Why a reply is rejected: the first cause that holds of it.
#[derive(Clone, Copy, Debug, PartialEq, Eq)]
pub enum Reason {
    WrongSize,
    WrongHeader,
    OtherToken,
    OtherCounter,
    BadTag,
    OtherDigest,
}

impl Reason {
    // The place of a cause, from 1.
    #[tactic(auto, unfolding(scheme::specs::Judging::cause_number))]
    pub fn number(self) -> u64
        ensures { (result ≡ J.cause_number (cause_of (Some self))) × (result ≤ 6) }
    {
        match self {
            Reason::WrongSize => 1,
            Reason::WrongHeader => 2,
            Reason::OtherToken => 3,
            Reason::OtherCounter => 4,
            Reason::BadTag => 5,
            Reason::OtherDigest => 6,
        }
    }
}

// Whether a reply proves possession.
#[derive(Clone, Copy, Debug, PartialEq, Eq)]
pub enum Verdict {
    Accepted,
    Rejected,
}

impl Verdict {
    // 0 for an accepted reply, else 11.
    pub fn number(self) -> u64
        ensures { result ≡ verdict_number self }
    {
        match self {
            Verdict::Accepted => 0,
            Verdict::Rejected => counts::codes::REJECTED,
        }
    }
}

// A reply is accepted where there is no cause to reject it.
impl From<Option<Reason>> for Verdict {
    ghost from_gives = { λ why v. verdict_number v ≡ J.verdict_of (cause_of why) };

    #[tactic(auto, unfolding(scheme::specs::Judging::verdict_of, scheme::specs::Judging::cause_number))]
    fn from(why: Option<Reason>) -> Verdict {
        match why {
            None => Verdict::Accepted,
            Some(_) => Verdict::Rejected,
        }
    }
}

// The record in a reply.
fn record_in(reply: &[u8; 110]) -> &[u8; 63]
    ensures { result.now ≡ drop 47 reply.now }
{
    reply.last_chunk().unwrap()
}

// Whether a reply and the record in it each have their length and the version.
fn heads_fit(version: u64, reply: &[u8; 110]) -> bool
    ensures { result ≡ (head_fits 108 version reply.now && head_fits 61 version (drop 47 reply.now)) }
{
    let own = records::head_fits(reply, lengths::REPLY, version);
    let its = records::head_fits(record_in(reply), lengths::RECORD, version);
    own & its
}

// Whether the id and the token's number that a reply names are those of a file and a token, and the number in the record beside them too.
pub fn names_fit(id: [u8; 8], token: u64, named: [u8; 8], i: u64, rec: &[u8; 63]) -> bool
    ensures { result ≡ (O.same named id && eqb i token && eqb (of_be (part 11 4 rec.now)) token) }
{
    let file = octets::same(&named, &id);
    let its = octets::be::<4>(rec, 11);
    file & (i == token) & (its == token)
}

// What the sealed bytes of a record open to under the key K of its file, at a counter and a token: the token where the tag holds. One block of ChaCha20 for
// the tag, and where it holds another for the token.
pub fn opened(key: [u8; 32], counter: u64, token: u64, rec: &[u8; 63]) -> Option<[u8; 32]>
    ensures { body_of result ≡ body_in standard key counter token rec.now }
{
    let i = counts::Token(token);
    if !seals::tag_holds(key, counter, i, rec) {
        return None;
    }
    Some(seals::token_of(key, counter, i, rec))
}

// Whether a token is the digest in a reply.
fn is_digest(x: [u8; 32], reply: &[u8; 110]) -> bool
    ensures { result ≡ O.same x (part 15 32 reply.now) }
{
    octets::same(&x, &reply[15..47])
}

// The cause that the sealed bytes of a reply give under the key K: the tag, then the token against the digest.
fn sealed_cause(key: [u8; 32], counter: u64, token: u64, reply: &[u8; 110]) -> Option<Reason>
    ensures { cause_of result ≡ sealed_cause key counter token reply.now }
{
    let Some(x) = opened(key, counter, token, record_in(reply)) else {
        return Some(Reason::BadTag);
    };
    if !is_digest(x, reply) {
        return Some(Reason::OtherDigest);
    }
    None
}

// Why a reply is rejected on a card, under the master. The key of the file is computed only where the clear bytes fit.
fn reply_cause(master: &[u8; 32], c: cards::Card, reply: &[u8]) -> Option<Reason>
    ensures { cause_of result ≡ J.cause standard master.now (card_of c) reply.now }
{
    let Ok(reply) = <&[u8; 110]>::try_from(reply) else {
        return Some(Reason::WrongSize);
    };
    if !heads_fit(c.version, reply) {
        return Some(Reason::WrongHeader);
    }
    let rec = record_in(reply);
    let i = octets::be::<4>(reply, 11);
    if !names_fit(c.id, c.open_token, octets::bytes::<8>(reply, 3), i, rec) {
        return Some(Reason::OtherToken);
    }
    if octets::be::<8>(rec, 3) != c.counter {
        return Some(Reason::OtherCounter);
    }
    let k = tokens::sealing_key(master, c.id);
    sealed_cause(k, c.counter, c.open_token, reply)
}

// What a judging is lent, its master and its card, or why it is turned away.
fn lent<'a>(master: &'a [u8], card: &[u8]) -> Result<(&'a [u8; 32], cards::Card), Refusal>
    ensures code { code_of result ≡ S.judge_fault standard master.now card.now }
    ensures kept { IfOk result (λ p. (p.0.now ≡ master.now) × (card_of p.1 ≡ read_card card.now)) }
{
    let Ok(master) = <&[u8; 32]>::try_from(master) else {
        return Err(Refusal::WrongLength);
    };
    cards::check_card(card)?;
    let c = cards::read_card(card);
    if c.open_token == 0 {
        return Err(Refusal::NoneOpen);
    }
    Ok((master, c))
}

// Judge: the verdict on a reply of any length, and writes the card on which no token is open; or a refusal, which leaves the card.
pub fn judge(master: &[u8], card: &mut [u8], reply: &[u8]) -> Result<Verdict, Refusal>
    ensures value { verdict_in result ≡ S.judge_code standard master.now card.old reply.now }
    ensures card_after { card.new ≡ S.judge_card standard master.now card.old reply.now }
{
    let (master, c) = lent(master, card)?;
    let why = reply_cause(master, c, reply);
    cards::write_card(card, cards::turned(c, c.next, 0));
    Ok(Verdict::from(why))
}

// Cause: the first cause for which judge would reject a reply, none where it would accept it; or the refusal by which judge would turn it away.
// Writes nothing.
pub fn cause(master: &[u8], card: &[u8], reply: &[u8]) -> Result<Option<Reason>, Refusal>
    ensures { cause_in result ≡ S.cause_code standard master.now card.now reply.now }
{
    let (master, c) = lent(master, card)?;
    Ok(reply_cause(master, c, reply))
}
