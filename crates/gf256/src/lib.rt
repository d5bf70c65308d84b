// The field of 256 elements with polynomial 0x11D: products and inverses by a table of 512 powers of 2 and a table of their logarithms, and a weighed
// block added to another, or to two at once. The tables are borrowed, so that no loop stores them anew; what they hold is proved once, where they are made.
// Every function equals a definition of specs/Field or specs/Mixing. Nothing is assumed.

#![tactic(auto)]

mod tables;

ghost use Rattle.std.specs.Prelude.{◌≡◌, ◌*◌, ◌<◌, ◌≤◌, length};
ghost use Rattle.gf256.specs.Tables.{doubled, powers, Logged};
ghost use Rattle.gf256.specs.Field.{times, inverse};
ghost use Rattle.gf256.specs.Mixing.{zipped, mixed_one, doubles_of, spread_by};

// The field, by the table of powers and that of their logarithms.
#[derive(Drop)]
pub struct Field {
    exp: [u8; 512],
    log: [u8; 256],
    ghost raised: { exp ≡ powers },
    ghost logged: { Logged log },
}

impl Field {
    pub fn new() -> Self {
        Field {
            exp: tables::POWERS,
            log: tables::LOGS,
        }
    }

    // The logarithm of a.
    fn log_of(&self, a: u8) -> usize
        ensures { (result < 255) × (1 ≤ a → doubled result 1 ≡ a) }
    {
        usize::from(self.log[usize::from(a)])
    }

    // The product of a and b. 0 has no logarithm.
    pub fn product(&self, a: u8, b: u8) -> u8
        ensures { result ≡ times a b }
    {
        if a == 0 {
            return 0;
        }
        if b == 0 {
            return 0;
        }
        let i = self.log_of(a);
        let j = self.log_of(b);
        self.exp[i + j]
    }

    // The inverse of a, 0 for 0.
    pub fn inverted(&self, a: u8) -> u8
        ensures { result ≡ inverse a }
    {
        if a == 0 {
            return 0;
        }
        let i = self.log_of(a);
        self.exp[255 - i]
    }

    // The doubles of w: w times 1, 2, 4 and so on to 128.
    fn doubles_of(&self, w: u8) -> [u8; 8]
        ensures { result ≡ doubles_of w }
    {
        [
            w,
            self.product(w, 2),
            self.product(w, 4),
            self.product(w, 8),
            self.product(w, 16),
            self.product(w, 32),
            self.product(w, 64),
            self.product(w, 128),
        ]
    }

    // Adds the block's bytes, weighed by w, to those of acc. The tables give the eight doubles of w once, and the loop only picks and sums, so that it
    // becomes code on many bytes at a time.
    pub fn mix(&self, w: u8, block: &[u8], acc: &mut [u8])
        requires { length acc.old ≡ length block.now }
        ensures { acc.new ≡ zipped (mixed_one w) block.now acc.old }
    {
        let m = self.doubles_of(w);
        for (i, b) in block.iter().enumerate() {
            acc[i] ^= spread(*b, &m);
        }
    }

    // Adds the block's bytes to those of one, weighed by v, and to those of two, weighed by w. The two share the tests of each byte's bits.
    pub fn mix_two(&self, v: u8, w: u8, block: &[u8], one: &mut [u8], two: &mut [u8])
        requires one_len { length one.old ≡ length block.now }
        requires two_len { length two.old ≡ length block.now }
        ensures one_after { one.new ≡ zipped (mixed_one v) block.now one.old }
        ensures two_after { two.new ≡ zipped (mixed_one w) block.now two.old }
    {
        let m = self.doubles_of(v);
        let n = self.doubles_of(w);
        for (i, x) in block.iter().enumerate() {
            let b = *x;
            one[i] ^= spread(b, &m);
            two[i] ^= spread(b, &n);
        }
    }
}

// m where the bit is 1, else 0.
fn picked(bit: u8, m: u8) -> u8
    requires { bit < 2 }
    ensures { result ≡ bit * m }
{
    if bit == 0 { 0 } else { m }
}

// The product of b with the number whose doubles are lent: the sum of those that its bits pick.
fn spread(b: u8, m: &[u8; 8]) -> u8
    ensures { result ≡ spread_by b m.now }
{
    picked(b % 2, m[0])
        ^ (picked(b / 2 % 2, m[1])
            ^ (picked(b / 4 % 2, m[2])
                ^ (picked(b / 8 % 2, m[3])
                    ^ (picked(b / 16 % 2, m[4])
                        ^ (picked(b / 32 % 2, m[5])
                            ^ (picked(b / 64 % 2, m[6]) ^ picked(b / 128 % 2, m[7])))))))
}
