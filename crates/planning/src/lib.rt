// Planning before a file is set up: how many positions to draw, and a planning sheet, which is the room, the reading and the risk of a file from its
// numbers alone.
// Every function equals a definition of the scheme's Calls or of specs/Sheet; specs/Exact and proofs/Theorems say what a sheet's numbers mean.
// Nothing is assumed.

#![tactic(auto)]

ghost use Rattle.std.specs.Prelude.{◌≡◌, ◌&&◌, ◌≤◌, min, length, IfOk};
ghost use Rattle.scheme.specs.Calls as C;
ghost use Rattle.scheme.specs.Checks.{within};
ghost use Rattle.octets.specs.Octets.{be};
ghost use Rattle.counts.specs.Sizes.{sheet_size};
ghost use Rattle.counts.specs.Limits.{most_rows, most_positions, most_tokens, most_blocks};
ghost use Rattle.counts.specs.Refused.{code_in, code_of, given_in};
ghost use Rattle.planning.specs.Sheet as S;

use counts::refusal::Refusal;
use counts::{limits, sizes};

// The numbers of a file to plan: B, d, r, t and n, and of its d rows the m that are damaged.
#[derive(Clone, Copy)]
pub struct Numbers {
    pub block_bytes: u64,
    pub rows: u64,
    pub positions: u64,
    pub tokens: u64,
    pub blocks: u64,
    pub damaged: u64,
}

// Numbers within their limits, which a sheet is for.
#[derive(Clone, Copy)]
struct Planned {
    rows: u64,
    positions: u64,
    tokens: u64,
    blocks: u64,
    damaged: u64,
    ghost some_row: { 1 ≤ rows },
    ghost few_rows: { rows ≤ most_rows },
    ghost few_positions: { positions ≤ most_positions },
    ghost positions_in_rows: { positions ≤ rows },
    ghost few_tokens: { tokens ≤ most_tokens },
    ghost few_blocks: { blocks ≤ most_blocks },
    ghost damaged_in_rows: { damaged ≤ rows },
}

// Whether the numbers that are given lie within their limits.
fn asked_fits(positions: u64, planned: u64, present: u64) -> bool
    ensures { result ≡ (within 1 most_rows planned && within 1 planned present && within 1 (min present most_positions) positions) }
{
    let rows = records::within(1, limits::MOST_ROWS, planned);
    let blocks = records::within(1, planned, present);
    let few = records::within(1, present.min(limits::MOST_POSITIONS), positions);
    rows & blocks & few
}

// Positions: how many positions of planned rows draw the share that `positions` draw of the blocks present, rounded up. OutOfLimits for numbers outside
// their limits, TooManyPositions for more than 512 positions.
pub fn positions(positions: u64, planned: u64, present: u64) -> Result<u64, Refusal>
    ensures value { given_in result ≡ C.positions_code positions planned present }
    ensures few { IfOk result (λ n. n ≤ most_positions) }
{
    if !asked_fits(positions, planned, present) {
        return Err(Refusal::OutOfLimits);
    }
    let given = (positions * planned).div_ceil(present);
    if limits::MOST_POSITIONS < given {
        return Err(Refusal::TooManyPositions);
    }
    Ok(given)
}

impl Numbers {
    // Whether B, d, r, t and n are within their limits.
    #[tactic(auto, unfolding(crate::specs::Sheet::sheet_fits))]
    fn fit(self) -> bool
        ensures { result ≡ S.sheet_fits self.block_bytes self.rows self.positions self.tokens self.blocks }
    {
        records::shape_fits(self.block_bytes, self.rows, self.positions)
            & records::token_fits(self.tokens)
            & records::blocks_fit(self.blocks)
    }

    // The numbers where a sheet of them fits a buffer: not where the buffer has another length, then where a number is outside its limits, then where more
    // rows are damaged than there are.
    fn planned(self, out: &[u8]) -> Result<Planned, Refusal>
        ensures code { code_of result ≡ S.sheet_code self.block_bytes self.rows self.positions self.tokens self.blocks self.damaged out.now }
        ensures kept { IfOk result (λ p. (p.rows ≡ self.rows) × (p.positions ≡ self.positions) × (p.tokens ≡ self.tokens) × (p.blocks ≡ self.blocks) × (p.damaged ≡ self.damaged)) }
    {
        if out.len() != sizes::SHEET {
            return Err(Refusal::WrongLength);
        }
        if !self.fit() {
            return Err(Refusal::OutOfLimits);
        }
        if self.rows < self.damaged {
            return Err(Refusal::TooManyDamaged);
        }
        Ok(Planned {
            rows: self.rows,
            positions: self.positions,
            tokens: self.tokens,
            blocks: self.blocks,
            damaged: self.damaged,
        })
    }
}

impl Planned {
    // The most turns that the positions of one token take together.
    fn ceiling(self) -> u64
        ensures { result ≡ S.ceiling self.rows self.positions }
    {
        let side = 1u64 << permutation::half_width(self.rows);
        self.positions + side * side - self.rows
    }

    // The least hashes for a proof of that many different rows.
    #[tactic(auto, unfolding(crate::specs::Sheet::least))]
    fn least(self) -> u64
        ensures { result ≡ S.least self.rows self.positions self.blocks }
    {
        let whole = self.positions * (self.blocks / self.rows);
        let short = self.rows - self.blocks % self.rows;
        whole + self.positions.saturating_sub(short)
    }

    // The most hashes for a proof of that many different rows.
    #[tactic(auto, unfolding(crate::specs::Sheet::most))]
    fn most(self) -> u64
        ensures { result ≡ S.most self.rows self.positions self.blocks }
    {
        let whole = self.positions * (self.blocks / self.rows);
        whole + self.positions.min(self.blocks % self.rows)
    }

    // The chance, in units of 2^-32, that so many different rows miss the damaged ones.
    fn escape(self) -> u64
        ensures { result ≡ S.escape self.rows self.positions self.damaged }
    {
        let sound = self.rows - self.damaged;
        if sound < self.positions {
            return 0;
        }
        let mut figure: u64 = 1 << 32;
        for j in 0..self.positions {
            figure = (figure * (sound - j)).div_ceil(self.rows - j);
        }
        figure
    }
}

// Writes five numbers over 40 bytes.
fn put_five(out: &mut [u8], five: [u64; 5])
    requires { length out.old ≡ sheet_size }
    ensures { out.new ≡ S.fields five }
{
    for (i, x) in five.iter().enumerate() {
        octets::put_be::<8>(out, 8 * i, *x);
    }
}

// Sheet: writes five numbers over 40 bytes: the table's bytes, a ceiling on the turns of one token, the least and the most hashes of a proof, and the
// chance of escape. WrongLength, OutOfLimits, TooManyDamaged. A refusal leaves the buffer.
pub fn sheet(numbers: Numbers, out: &mut [u8]) -> Result<(), Refusal>
    ensures value { code_in result ≡ S.sheet_code numbers.block_bytes numbers.rows numbers.positions numbers.tokens numbers.blocks numbers.damaged out.old }
    ensures out_after { out.new ≡ S.sheet_out numbers.block_bytes numbers.rows numbers.positions numbers.tokens numbers.blocks numbers.damaged out.old }
{
    let file = numbers.planned(out)?;
    let table = file.tokens * sizes::RECORD_BYTES;
    let (low, high) = (file.least(), file.most());
    put_five(out, [table, file.ceiling(), low, high, file.escape()]);
    Ok(())
}
