// Groups of data and parity blocks: parity blocks from data blocks, and lost data blocks from those that are left.
// Every function equals what specs/Group defines, at every place of a block. Nothing is assumed.

#![tactic(auto)]

ghost use Rattle.std.specs.Prelude.{◌≡◌, [], ◌∷◌, map, ℕ, ◌+◌, ◌*◌, ◌/◌, ◌%◌, ◌<◌, ◌≤◌, length, take, drop, replicate, slice_index};
ghost use Rattle.cauchy.specs.Solve.{row};
ghost use Rattle.cauchy.specs.System.{Solvable, Solvable-prop};
ghost use Rattle.erasure.specs.Group.{tabulate, byte_at, count, named, lost_data, encoded};
ghost use Rattle.erasure.specs.Blocks.{Within, Mixed, Combined, EncodedFrom, Solved, put_byte, Put};

use gf256::Field;

// Blocks of one size, laid end to end, and the field in which they are weighed.
#[derive(Clone, Copy)]
pub struct Blocks<'a> {
    pub field: &'a Field,
    pub size: usize,
    pub bytes: &'a [u8],
}

impl Blocks<'_> {
    // Block n.
    fn block(&self, n: u8) -> &[u8]
        requires { n * self.now.size + self.now.size ≤ length self.now.bytes.now }
        ensures { result.now ≡ take self.now.size (drop (n * self.now.size) self.now.bytes.now) }
    {
        let at = usize::from(n) * self.size;
        &self.bytes[at..at + self.size]
    }

    // Adds the blocks that ns names, weighed by ws, to acc.
    fn add(&self, ns: &[u8], ws: &[u8], acc: &mut [u8])
        requires ws_len { length ws.now ≡ length ns.now }
        requires acc_len { length acc.old ≡ self.now.size }
        requires within { Within self.now.size ns.now (length self.now.bytes.now) }
        ensures { Mixed self.now.size ns.now ws.now self.now.bytes.now acc.old acc.new }
    {
        for (j, n) in ns.iter().enumerate() {
            self.field.mix(ws[j], self.block(*n), acc);
        }
    }

    // Adds the blocks that ns names to one, weighed by vs, and to two, weighed by ws.
    fn add_two(&self, ns: &[u8], vs: &[u8], ws: &[u8], one: &mut [u8], two: &mut [u8])
        requires vs_len { (length vs.now ≡ length ns.now) × (length ws.now ≡ length ns.now) }
        requires one_len { (length one.old ≡ self.now.size) × (length two.old ≡ self.now.size) }
        requires within { Within self.now.size ns.now (length self.now.bytes.now) }
        ensures mixed { Mixed self.now.size ns.now vs.now self.now.bytes.now one.old one.new }
        ensures mixed_2 { Mixed self.now.size ns.now ws.now self.now.bytes.now two.old two.new }
    {
        for (j, n) in ns.iter().enumerate() {
            self.field.mix_two(vs[j], ws[j], self.block(*n), one, two);
        }
    }
}

// The k data blocks of a group, and their numbers.
#[derive(Clone, Copy)]
pub struct Data<'a> {
    pub blocks: Blocks<'a>,
    pub k: u8,
    pub numbers: &'a [u8],
    pub ghost counted: { numbers.now ≡ count 0 k },
    pub ghost whole: { length blocks.bytes.now ≡ k * blocks.size },
}

impl Data<'_> {
    // Writes the weights of the data blocks in the parity block numbered u, which is the sum of that one parity block, weighed by 1; and clears the block
    // that they will be added to.
    fn begin(&self, u: u8, ws: &mut [u8], acc: &mut [u8])
        requires { length ws.old ≡ self.now.k }
        ensures ws_after { ws.new ≡ map (λ (q : ℕ). row q (u ∷ []) (1 ∷ [])) self.now.numbers.now }
        ensures acc_after { acc.new ≡ replicate (length acc.old) 0 }
    {
        cauchy::weights_of(self.blocks.field, &[u], &[1], self.numbers, ws);
        acc.fill(0);
    }

    // Writes the parity block numbered u. ws is room for its weights.
    fn encode_one(&self, u: u8, ws: &mut [u8], out: &mut [u8])
        requires ws_len { length ws.old ≡ self.now.k }
        requires out_len { length out.old ≡ self.now.blocks.size }
        ensures { EncodedFrom self.now.blocks.size self.now.k u 1 self.now.blocks.bytes.now out.new }
    {
        self.begin(u, ws, out);
        self.blocks.add(self.numbers, ws, out);
    }

    // Writes the parity blocks numbered u and u + 1. vs and ws are room for their weights.
    fn encode_two(&self, u: u8, vs: &mut [u8], ws: &mut [u8], out: &mut [u8])
        requires u_bound { u < 255 }
        requires vs_len { (length vs.old ≡ self.now.k) × (length ws.old ≡ self.now.k) }
        requires out_len { length out.old ≡ 2 * self.now.blocks.size }
        ensures { EncodedFrom self.now.blocks.size self.now.k u 2 self.now.blocks.bytes.now out.new }
    {
        let (one, two) = out.split_at_mut(self.blocks.size);
        self.begin(u, vs, one);
        self.begin(u + 1, ws, two);
        self.blocks.add_two(self.numbers, vs, ws, one, two);
    }

    // Writes the p parity blocks, two at a time, so that each data block is looked through once for two of them. vs and ws are room for weights.
    pub fn encode(&self, p: u8, vs: &mut [u8], ws: &mut [u8], parity: &mut [u8])
        requires vs_len { (length vs.old ≡ self.now.k) × (length ws.old ≡ self.now.k) }
        requires le_size { (1 ≤ self.now.blocks.size) × (self.now.k + p ≤ 64) }
        requires parity_len { length parity.old ≡ p * self.now.blocks.size }
        ensures { parity.new ≡ encoded self.now.blocks.size self.now.k p self.now.blocks.bytes.now }
    {
        let size = self.blocks.size;
        for i in 0..p / 2 {
            let x = 2 * i;
            let at = usize::from(x) * size;
            let end = at + 2 * size;
            self.encode_two(self.k + x, vs, ws, &mut parity[at..end]);
        }
        if p % 2 == 1 {
            let x = p - 1;
            let at = usize::from(x) * size;
            let end = at + size;
            self.encode_one(self.k + x, vs, &mut parity[at..end]);
        }
    }
}

// A group with lost blocks: its k data blocks are rebuilt from the parity blocks us, the lost data blocks vs and the kept ones qs.
#[derive(Clone, Copy)]
pub struct Left<'a> {
    pub blocks: Blocks<'a>,
    pub k: u8,
    pub lost: &'a [u8],
    pub us: &'a [u8],
    pub vs: &'a [u8],
    pub qs: &'a [u8],
    pub ghost solvable: { Solvable us.now vs.now } by { Solvable-prop us.now vs.now },
    pub ghost lost_named: { vs.now ≡ lost_data lost.now k },
    pub ghost sources: { Within blocks.size us.now (length blocks.bytes.now) },
    pub ghost kept: { Within blocks.size qs.now (length blocks.bytes.now) },
    pub ghost whole: { k * blocks.size ≤ length blocks.bytes.now },
    pub ghost in_range: { (i : ℕ) → slice_index blocks.bytes.now i < 256 },
}

impl Left<'_> {
    // Writes to acc what the kept data blocks make of the sum of the parity blocks us, weighed by cs. ws is room for the weights.
    fn combine(&self, cs: &[u8], ws: &mut [u8], acc: &mut [u8])
        requires cs_len { length cs.now ≡ length self.now.us.now }
        requires ws_len { length ws.old ≡ length self.now.qs.now }
        requires acc_len { length acc.old ≡ self.now.blocks.size }
        ensures { Combined self.now.blocks.size self.now.us.now cs.now self.now.qs.now self.now.blocks.bytes.now acc.new }
    {
        cauchy::weights_of(self.blocks.field, self.us, cs, self.qs, ws);
        acc.fill(0);
        self.blocks.add(self.qs, ws, acc);
    }

    // Writes the lost data block that stands at i among vs. Its weights in the parity blocks us are what is solved for the unit, with us and vs exchanged,
    // since a weight is the same either way round. cs and ws are room for the weights.
    fn rebuild(&self, i: usize, cs: &mut [u8], ws: &mut [u8], acc: &mut [u8])
        requires i_in_bounds { i < length self.now.us.now }
        requires cs_len { length cs.old ≡ length self.now.us.now }
        requires ws_len { length ws.old ≡ length self.now.qs.now }
        requires acc_len { length acc.old ≡ self.now.blocks.size }
        ensures { Solved self.now.blocks.size i self.now.us.now self.now.vs.now self.now.qs.now self.now.blocks.bytes.now acc.new }
    {
        cs.fill(0);
        cs[i] = 1;
        cauchy::solve_for(self.blocks.field, self.vs, self.us, cs);
        self.combine(cs, ws, acc);
        self.blocks.add(self.us, cs, acc);
    }

    // Writes data block n, which is rebuilt where it is lost, and copied where not. i of the data blocks below it are lost; answers how many up to it are.
    fn put(&self, n: u8, i: usize, cs: &mut [u8], ws: &mut [u8], acc: &mut [u8]) -> usize
        requires n_lt_k { (n < self.now.k) × (i ≡ length (lost_data self.now.lost.now n)) }
        requires cs_len { length cs.old ≡ length self.now.us.now }
        requires ws_len { length ws.old ≡ length self.now.qs.now }
        requires acc_len { length acc.old ≡ self.now.blocks.size }
        ensures value { result ≡ length (lost_data self.now.lost.now (n + 1)) }
        ensures put { Put self.now.blocks.size n self.now.lost.now self.now.us.now self.now.vs.now self.now.qs.now self.now.blocks.bytes.now acc.new }
    {
        if is_named(self.lost, n) {
            self.rebuild(i, cs, ws, acc);
            return i + 1;
        }
        octets::copy(acc, 0, self.blocks.block(n));
        i
    }

    // Writes the k data blocks, one after the other. cs and ws are room for weights.
    pub fn put_all(&self, cs: &mut [u8], ws: &mut [u8], group: &mut [u8])
        requires cs_len { length cs.old ≡ length self.now.us.now }
        requires ws_len { length ws.old ≡ length self.now.qs.now }
        requires group_len { length group.old ≡ self.now.k * self.now.blocks.size }
        ensures { group.new ≡ tabulate (self.now.k * self.now.blocks.size) (λ (i : ℕ). put_byte self.now.lost.now self.now.us.now self.now.vs.now self.now.qs.now (byte_at self.now.blocks.size (i % self.now.blocks.size) self.now.blocks.bytes.now) (i / self.now.blocks.size)) }
    {
        let size = self.blocks.size;
        let mut i: usize = 0;
        for n in 0..self.k {
            let at = usize::from(n) * size;
            let end = at + size;
            i = self.put(n, i, cs, ws, &mut group[at..end]);
        }
    }
}

// Whether n is among the lost.
pub fn is_named(lost: &[u8], n: u8) -> bool
    ensures { result ≡ named lost.now n }
{
    for i in 0..lost.len() {
        if lost[i] == n {
            return true;
        }
    }
    false
}
