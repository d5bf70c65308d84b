// The card of a file: read from its bytes, checked and written, and what each call makes of it.
// Every function equals a definition of the scheme's Records, Calls or Changes. Nothing is assumed.
// A card has 43 bytes, in version 3 another 20 behind them: what is told of asks.

#![tactic(auto)]

ghost use Rattle.std.specs.Prelude.{◌≡◌, ◌++◌, cond, ◌&&◌, ◌||◌, ◌+◌, ◌-◌, ◌≤◌, ◌<◌, eqb, length, get_or};
ghost use Rattle.octets.specs.Octets.{be, of_be, part, put};
ghost use Rattle.counts.specs.Refused.{code_in};
ghost use Rattle.counts.specs.Sizes.{card_size, two_step_card_size};
ghost use Rattle.counts.specs.Limits.{most_counter};
ghost use Rattle.scheme.specs.Checks as L;
ghost use Rattle.scheme.specs.Records as S;
ghost use Rattle.scheme.specs.Calls.{turned_card};
ghost use Rattle.scheme.specs.Changes.{asked_card, committed_card, dropped_card};
ghost use Rattle.cards.specs.Fields.{card_of, told_card, front_bytes, head_fault, card_fault};

use counts::refusal::Refusal;

// What a card holds. `open_token` is 0, or the token that is drawn and not judged yet. `last` is the last counter issued; `pending` and `count` are the
// counter and the number of blocks of a change that is asked, and neither committed nor dropped yet, both 0 for none.
#[derive(Clone, Copy)]
pub struct Card {
    pub version: u64,
    pub id: [u8; 8],
    pub block_bytes: u64,
    pub rows: u64,
    pub positions: u64,
    pub tokens: u64,
    pub blocks: u64,
    pub counter: u64,
    pub next: u64,
    pub open_token: u64,
    pub last: u64,
    pub pending: u64,
    pub count: u64,
}

// What a card tells of asks.
#[derive(Clone, Copy)]
struct Asks {
    last: u64,
    pending: u64,
    count: u64,
}

// What the length field of a card of a version says.
pub fn card_length(version: u64) -> u64
    ensures { (result ≡ S.card_length version) × (result ≤ 61) }
{
    if version == 3 {
        return counts::lengths::TWO_STEP_CARD;
    }
    counts::lengths::CARD
}

// Whether a card has the size of one version or another.
pub fn sized(s: &[u8]) -> bool
    ensures { result ≡ S.card_sized s.now }
{
    (s.len() == counts::sizes::CARD) | (s.len() == counts::sizes::TWO_STEP_CARD)
}

// Whether a card of at least three bytes bears a version that there is, and has the length field and the size of that version.
pub fn head_fits(s: &[u8]) -> bool
    requires { 3 ≤ length s.now }
    ensures { result ≡ S.card_head s.now }
{
    let long = card_length(records::version_in(s));
    let known = records::head_known(s, long);
    known & (s.len() as u64 == 2 + long)
}

// What a card tells of asks in the bytes behind its open token. Versions 1 and 2 have none there, and read as nothing pending and the counter last issued.
fn read_asks(s: &[u8], version: u64, counter: u64) -> Asks
    requires { version ≡ 3 → two_step_card_size ≤ length s.now }
    ensures last_value { result.last ≡ cond (eqb version 3) (of_be (part 43 8 s.now)) counter }
    ensures pending_value { (result.pending ≡ cond (eqb version 3) (of_be (part 51 8 s.now)) 0) × (result.count ≡ cond (eqb version 3) (of_be (part 59 4 s.now)) 0) }
{
    if version == 3 {
        return Asks {
            last: octets::be::<8>(s, 43),
            pending: octets::be::<8>(s, 51),
            count: octets::be::<4>(s, 59),
        };
    }
    Asks {
        last: counter,
        pending: 0,
        count: 0,
    }
}

// The card in 43 bytes, in version 3 in 63.
pub fn read_card(s: &[u8]) -> Card
    requires { (card_size ≤ length s.now) × (get_or s.now 2 0 ≡ 3 → two_step_card_size ≤ length s.now) }
    ensures { card_of result ≡ S.read_card s.now }
{
    let version = records::version_in(s);
    let counter = octets::be::<8>(s, 27);
    let asks = read_asks(s, version, counter);
    Card {
        version,
        id: octets::bytes::<8>(s, 3),
        block_bytes: octets::be::<2>(s, 11),
        rows: octets::be::<4>(s, 13),
        positions: octets::be::<2>(s, 17),
        tokens: octets::be::<4>(s, 19),
        blocks: octets::be::<4>(s, 23),
        counter,
        next: octets::be::<4>(s, 35),
        open_token: octets::be::<4>(s, 39),
        last: asks.last,
        pending: asks.pending,
        count: asks.count,
    }
}

// Whether the token to draw is one of 1 to t + 1, and the open one is none or the one before it.
fn turn_fits(tokens: u64, next: u64, open_token: u64) -> bool
    ensures { result ≡ (L.within 1 (tokens + 1) next && (eqb open_token 0 || eqb open_token (next - 1))) }
{
    if next < 1 {
        return false;
    }
    let before = next - 1;
    (before <= tokens) & ((open_token == 0) | (open_token == before))
}

// Whether the last counter issued is one from the card's on, and nothing is pending, or a change that took the last counter, keeps every block and came
// while no token was open.
fn asks_fit(c: Card) -> bool
    ensures { result ≡ S.asks_fit (card_of c) }
{
    let issued = records::within(c.counter, counts::limits::MOST_COUNTER, c.last);
    let none = (c.pending == 0) & (c.count == 0);
    let newest = (c.pending == c.last) & (c.counter < c.pending);
    let kept = records::within(c.blocks, counts::limits::MOST_BLOCKS, c.count);
    issued & (none | (newest & kept & (c.open_token == 0)))
}

// Whether every field of a card is within its limits.
pub fn card_fits(c: Card) -> bool
    ensures { result ≡ S.card_fits (card_of c) }
{
    let shape = records::shape_fits(c.block_bytes, c.rows, c.positions);
    let tokens = records::token_fits(c.tokens);
    let blocks = records::blocks_fit(c.blocks);
    let turn = turn_fits(c.tokens, c.next, c.open_token);
    let asks = asks_fit(c);
    shape & tokens & blocks & (c.counter <= counts::limits::MOST_COUNTER) & turn & asks
}

// Refuses a lent card for its size or head: one of a length that no card has, then one with a version that there is not, or with a length field or a
// size that is not that version's.
pub fn check_head(s: &[u8]) -> Result<(), Refusal>
    ensures { code_in result ≡ head_fault s.now }
{
    let some = sized(s);
    if !some {
        return Err(Refusal::WrongLength);
    }
    let head = head_fits(s);
    if !head {
        return Err(Refusal::WrongHeader);
    }
    Ok(())
}

// Refuses a lent card: for its size or head, then for a field outside its limits.
pub fn check_card(s: &[u8]) -> Result<(), Refusal>
    ensures { code_in result ≡ card_fault s.now }
{
    check_head(s)?;
    let c = read_card(s);
    let fits = card_fits(c);
    if !fits {
        return Err(Refusal::OutOfLimits);
    }
    Ok(())
}

// The card with another token to draw and another open one.
pub fn turned(c: Card, next: u64, open_token: u64) -> Card
    ensures { card_of result ≡ turned_card (card_of c) next open_token }
{
    let mut after = c;
    after.next = next;
    after.open_token = open_token;
    after
}

// The card that tells this of asks.
fn with_asks(c: Card, last: u64, pending: u64, count: u64) -> Card
    ensures { card_of result ≡ told_card (card_of c) last pending count }
{
    let mut after = c;
    after.last = last;
    after.pending = pending;
    after.count = count;
    after
}

// The card while a change to so many blocks is pending: it takes the counter behind the last issued.
pub fn asked(c: Card, blocks: u64) -> Card
    requires { c.last < most_counter }
    ensures { card_of result ≡ asked_card (card_of c) blocks }
{
    let issued = c.last + 1;
    with_asks(c, issued, issued, blocks)
}

// The card after a commit: the pending counter and number of blocks are the standing ones.
pub fn committed(c: Card) -> Card
    ensures { card_of result ≡ committed_card (card_of c) }
{
    let mut after = c;
    after.blocks = c.count;
    after.counter = c.pending;
    with_asks(after, c.last, 0, 0)
}

// The card after a drop: nothing is pending, and the counter that the ask took stays issued.
pub fn dropped(c: Card) -> Card
    ensures { card_of result ≡ dropped_card (card_of c) }
{
    with_asks(c, c.last, 0, 0)
}

// Writes what every card begins with over the first 43 bytes.
fn put_front(s: &mut [u8], c: Card)
    requires { (card_size ≤ length s.old) × (c.version < 256) }
    ensures { s.new ≡ put 0 (front_bytes (card_of c)) s.old }
{
    let id = c.id;
    let long = card_length(c.version);
    records::put_front(s, long, c.version, id);
    records::put_shape(s, 11, c.block_bytes, c.rows, c.positions);
    octets::put_be::<4>(s, 19, c.tokens);
    octets::put_be::<4>(s, 23, c.blocks);
    octets::put_be::<8>(s, 27, c.counter);
    octets::put_be::<4>(s, 35, c.next);
    octets::put_be::<4>(s, 39, c.open_token);
}

// Writes what a card of version 3 tells of asks over the 20 bytes behind these.
fn put_asks(s: &mut [u8], last: u64, pending: u64, count: u64)
    requires { two_step_card_size ≤ length s.old }
    ensures { s.new ≡ put 43 (be 8 last ++ be 8 pending ++ be 4 count) s.old }
{
    octets::put_be::<8>(s, 43, last);
    octets::put_be::<8>(s, 51, pending);
    octets::put_be::<4>(s, 59, count);
}

// Writes a card over the bytes that a card of its version has.
pub fn write_card(s: &mut [u8], c: Card)
    requires { (length s.old ≡ 2 + S.card_length c.version) × (c.version < 256) }
    ensures { s.new ≡ S.card_bytes (card_of c) }
{
    put_front(s, c);
    if c.version == 3 {
        put_asks(s, c.last, c.pending, c.count);
    }
}
