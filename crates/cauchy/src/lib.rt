// Solving for unknown data bytes from parity bytes, by elimination without a matrix: the weights of a parity byte follow from the numbers alone.
// Every function equals a definition of specs/Solve. Nothing is assumed.

#![tactic(auto)]

ghost use Rattle.std.specs.Prelude.{◌≡◌, map, ℕ, length};
ghost use Rattle.cauchy.specs.Solve.{weight, row, reduced_one, reduced, unscaled_one, unscaled, solve};

use gf256::Field;

// The weight of the data numbered q in the parity numbered u.
fn weight_of(field: &Field, u: u8, q: u8) -> u8
    ensures { result ≡ weight u q }
{
    field.inverted(u ^ q)
}

// What the data ds, numbered vs, make of the parity numbered u.
fn row_of(field: &Field, u: u8, vs: &[u8], ds: &[u8]) -> u8
    requires { length ds.now ≡ length vs.now }
    ensures { result ≡ row u vs.now ds.now }
{
    let mut sum = 0;
    for (v, d) in vs.iter().zip(ds) {
        sum ^= field.product(*d, weight_of(field, u, *v));
    }
    sum
}

// A step of elimination: the parity w takes the unknown v out of the other parities.
#[derive(Clone, Copy)]
struct Step<'a> {
    field: &'a Field,
    w: u8,
    v: u8,
}

impl Step<'_> {
    // The sum t of the parity u without the unknown v, from the sum s of the parity w.
    fn reduced_one(&self, s: u8, u: u8, t: u8) -> u8
        ensures { result ≡ reduced_one self.now.w self.now.v s u t }
    {
        let a = self.field.product(u ^ self.v, t);
        let b = self.field.product(self.w ^ self.v, s);
        let c = weight_of(self.field, self.w, u);
        self.field.product(a ^ b, c)
    }

    // The unknown x from the scaled one, e.
    fn unscaled_one(&self, x: u8, e: u8) -> u8
        ensures { result ≡ unscaled_one self.now.w self.now.v x e }
    {
        let a = weight_of(self.field, self.v, x);
        let b = self.field.product(self.w ^ x, a);
        self.field.product(e, b)
    }

    // Takes the unknown v out of the sums ts of the parities us.
    fn reduce(&self, s: u8, us: &[u8], ts: &mut [u8])
        requires { length ts.old ≡ length us.now }
        ensures { ts.new ≡ reduced self.now.w self.now.v s us.now ts.old }
    {
        for (i, u) in us.iter().enumerate() {
            ts[i] = self.reduced_one(s, *u, ts[i]);
        }
    }

    // The unknowns xs from the scaled ones, in place.
    fn unscale(&self, xs: &[u8], es: &mut [u8])
        requires { length es.old ≡ length xs.now }
        ensures { es.new ≡ unscaled self.now.w self.now.v xs.now es.old }
    {
        for (i, x) in xs.iter().enumerate() {
            es[i] = self.unscaled_one(*x, es[i]);
        }
    }
}

// Solves for the data numbered vs, from the sums s of the parities us, in place.
pub fn solve_for(field: &Field, us: &[u8], vs: &[u8], s: &mut [u8])
    requires us_len { length us.now ≡ length vs.now }
    requires s_len { length s.old ≡ length vs.now }
    ensures { s.new ≡ solve us.now vs.now s.old }
{
    let ([w, others @ ..], [v, unknowns @ ..]) = (us, vs) else {
        return;
    };
    let Some((t, sums)) = s.split_first_mut() else {
        return;
    };
    let step = Step {
        field,
        w: *w,
        v: *v,
    };
    step.reduce(*t, others, sums);
    solve_for(field, others, unknowns, sums);
    step.unscale(unknowns, sums);
    *t = field.product(*w ^ *v, *t ^ row_of(field, *w, unknowns, sums));
}

// The weight of each data block of qs in the sum of the parity blocks us, weighed by cs.
pub fn weights_of(field: &Field, us: &[u8], cs: &[u8], qs: &[u8], out: &mut [u8])
    requires cs_len { length cs.now ≡ length us.now }
    requires out_len { length out.old ≡ length qs.now }
    ensures { out.new ≡ map (λ (q : ℕ). row q us.now cs.now) qs.now }
{
    for (i, q) in qs.iter().enumerate() {
        out[i] = row_of(field, *q, us, cs);
    }
}
