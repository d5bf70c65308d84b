// The call that founds a file: set-up, which writes its card, its table and its totals. A set-up that is turned away leaves all three.
// Every function equals a definition of the scheme's Calls at the standard primitives. Nothing is assumed.

#![tactic(auto)]

ghost use Rattle.std.specs.Prelude.{◌≡◌, ◌&&◌, ◌+◌, ◌*◌, ◌≤◌, ◌<◌, eqb, length};
ghost use Rattle.counts.specs.Refused.{code_in};
ghost use Rattle.counts.specs.Sizes.{master_size, id_size, record_size, totals_size};
ghost use Rattle.counts.specs.Limits.{most_block_bytes, most_rows, most_positions, most_tokens, most_blocks};
ghost use Rattle.scheme.specs.Calls as S;
ghost use Rattle.scheme.specs.Lists.{pieces, records_from};
ghost use Rattle.scheme.specs.Marks.{version_fits, live, alike};
ghost use Rattle.scheme.specs.Records.{card_length, card_sized, shape_fits, token_fits, blocks_fit};
ghost use Rattle.scheme.specs.Table.{sealed_record};
ghost use Rattle.scheme.specs.Tokens as T;
ghost use Rattle.scheme.specs.Totals.{sum_from, digest_turns, digest_hashes};
ghost use Rattle.standard.specs.Standard.{standard};
ghost use Rattle.tokens.specs.Keyed.{token_key};

use counts::refusal::Refusal;
use counts::sizes;

// The numbers of a new file: its version, B, d, r, t and n.
#[derive(Clone, Copy)]
pub struct Numbers {
    pub version: u64,
    pub block_bytes: u64,
    pub rows: u64,
    pub positions: u64,
    pub tokens: u64,
    pub blocks: u64,
}

impl Numbers {
    // Whether there is such a version, and the numbers are within their limits.
    fn fit(self) -> bool
        ensures { result ≡ (version_fits self.version && shape_fits self.block_bytes self.rows self.positions && token_fits self.tokens && blocks_fit self.blocks) }
    {
        records::version_fits(self.version)
            & records::shape_fits(self.block_bytes, self.rows, self.positions)
            & records::token_fits(self.tokens)
            & records::blocks_fit(self.blocks)
    }

    // Whether the blocks, the card and the table of a set-up have the bytes that the version and numbers within the limits ask for.
    fn sizes_fit(self, blocks: &[u8], card: &[u8], table: &[u8]) -> bool
        requires { (self.block_bytes ≤ most_block_bytes) × (self.blocks ≤ most_blocks) × (self.tokens ≤ most_tokens) }
        ensures { result ≡ (eqb (length blocks.now) (self.blocks * self.block_bytes) && eqb (length card.now) (2 + card_length self.version) && eqb (length table.now) (self.tokens * record_size)) }
    {
        let whole = blocks.len() as u64 == self.blocks * self.block_bytes;
        let told = card.len() as u64 == 2 + cards::card_length(self.version);
        whole & told & (table.len() as u64 == self.tokens * sizes::RECORD_BYTES)
    }
}

// Whether the master, the id, the card and the totals that a set-up is lent have their lengths, the card that of some version.
fn lent_fits(master: &[u8], id: &[u8], card: &[u8], totals: &[u8]) -> bool
    ensures { result ≡ (eqb (length master.now) master_size && eqb (length id.now) id_size && card_sized card.now && eqb (length totals.now) totals_size) }
{
    let sized = cards::sized(card);
    (master.len() == sizes::MASTER)
        & (id.len() == sizes::ID)
        & sized
        & (totals.len() == sizes::TOTALS)
}

// Refuses a set-up: WrongLength for a buffer of fixed size, OutOfLimits, then WrongLength for one whose size the numbers give. Writes nothing.
fn check(
    master: &[u8],
    id: &[u8],
    numbers: Numbers,
    blocks: &[u8],
    card: &[u8],
    table: &[u8],
    totals: &[u8],
) -> Result<(), Refusal>
    ensures { code_in result ≡ S.set_up_code standard master.now id.now numbers.version numbers.block_bytes numbers.rows numbers.positions numbers.tokens numbers.blocks blocks.now card.now table.now totals.now }
{
    if !lent_fits(master, id, card, totals) {
        return Err(Refusal::WrongLength);
    }
    if !numbers.fit() {
        return Err(Refusal::OutOfLimits);
    }
    if !numbers.sizes_fit(blocks, card, table) {
        return Err(Refusal::WrongLength);
    }
    Ok(())
}

// Fills the table of a new file: record i holds token i over the blocks, all live, sealed in the card's version at counter 0. Each drawn block of a token
// is hashed once. Answers the turns and the hashes that all tokens took.
fn fill_table(keys: tokens::Keys, c: cards::Card, blocks: &[u8], table: &mut [u8]) -> counts::Totals
    requires version_bound { (c.version < 256) × (1 ≤ c.rows) × (c.rows ≤ most_rows) × (c.block_bytes ≤ most_block_bytes) × (c.blocks ≤ most_blocks) × (length blocks.now ≡ c.blocks * c.block_bytes) }
    requires positions_le_rows { (c.positions ≤ c.rows) × (c.positions ≤ most_positions) × (c.tokens ≤ most_tokens) × (length table.old ≡ c.tokens * record_size) }
    ensures table_after { table.new ≡ records_from (λ i. sealed_record standard keys.k c.version 0 i (T.digest standard (token_key keys.w i) (token_key keys.z i) c.rows c.positions (alike (live c.version) (pieces c.block_bytes c.blocks blocks.now)))) c.tokens 1 }
    ensures turns_value { (result.turns ≡ sum_from c.tokens 1 (λ i. digest_turns standard (token_key keys.w i) c.rows c.positions)) × (result.hashes ≡ sum_from c.tokens 1 (λ i. digest_hashes standard (token_key keys.w i) c.rows c.positions c.blocks)) }
{
    let w = keys.w;
    let z = keys.z;
    let k = keys.k;
    let live = [0u8; 1];
    let b = digests::Span {
        rows: c.rows,
        size: c.block_bytes,
        count: c.blocks,
        mark: records::marks_in(c.version),
        step: 0,
    };
    let mut turns: u64 = 0;
    let mut hashes: u64 = 0;
    for i in 1..c.tokens + 1 {
        let draw_key = tokens::token_key(w, counts::Token(i));
        let hash_key = tokens::token_key(z, counts::Token(i));
        let x = digests::digest(draw_key, hash_key, b, c.positions, blocks, &live);
        let token = x.digest;
        seals::seal_token(k, c.version, 0, counts::Token(i), token, table);
        turns += x.turns;
        hashes += x.hashes;
    }
    counts::Totals { turns, hashes }
}

// The eight bytes of a file id.
fn file_id(id: &[u8]) -> [u8; 8]
    requires { length id.now ≡ id_size }
    ensures { result ≡ id.now }
{
    let mut file = [0u8; 8];
    file.copy_from_slice(id);
    file
}

// Set-up: writes the card and the table of a new file over the blocks present and its totals; a refusal leaves all three. Rows beyond the blocks are empty
// and add nothing.
pub fn set_up(
    master: &[u8],
    id: &[u8],
    numbers: Numbers,
    blocks: &[u8],
    card: &mut [u8],
    table: &mut [u8],
    totals: &mut [u8],
) -> Result<(), Refusal>
    ensures value { code_in result ≡ S.set_up_code standard master.now id.now numbers.version numbers.block_bytes numbers.rows numbers.positions numbers.tokens numbers.blocks blocks.now card.old table.old totals.old }
    ensures card_after { card.new ≡ S.set_up_card standard master.now id.now numbers.version numbers.block_bytes numbers.rows numbers.positions numbers.tokens numbers.blocks blocks.now card.old table.old totals.old }
    ensures table_after { table.new ≡ S.set_up_table standard master.now id.now numbers.version numbers.block_bytes numbers.rows numbers.positions numbers.tokens numbers.blocks blocks.now card.old table.old totals.old }
    ensures totals_after { totals.new ≡ S.set_up_totals standard master.now id.now numbers.version numbers.block_bytes numbers.rows numbers.positions numbers.tokens numbers.blocks blocks.now card.old table.old totals.old }
{
    check(master, id, numbers, blocks, card, table, totals)?;
    let file = file_id(id);
    let keys = tokens::file_keys(master, file);
    let c = cards::Card {
        version: numbers.version,
        id: file,
        block_bytes: numbers.block_bytes,
        rows: numbers.rows,
        positions: numbers.positions,
        tokens: numbers.tokens,
        blocks: numbers.blocks,
        counter: 0,
        next: 1,
        open_token: 0,
        last: 0,
        pending: 0,
        count: 0,
    };
    let changes = fill_table(keys, c, blocks, table);
    cards::write_card(card, c);
    records::write_totals(totals, changes);
    Ok(())
}
