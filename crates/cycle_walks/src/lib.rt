// Many walks back of the permutation P under one key. Every function equals a definition of the permutation or of specs/. Nothing is assumed.
// Over a table of the round function the walks go side by side: each takes its first turn, then all that are not below d take one more, and so on. A walk
// alone waits for each turn before it knows whether there is another; side by side the processor is busy with one while it waits for others.
// Where the turns alone are asked for, no walk remembers where it began, and four go at once.

#![tactic(auto)]

ghost use Rattle.std.specs.Prelude.{◌≡◌, cond, List, ℕ, ◌+◌, ◌%◌, ◌^◌, ◌≤◌, ◌<◌, leb, length, take, get_or};
ghost use Rattle.permutation.specs.Rounds.{half};
ghost use Rattle.permutation.specs.Table.{Tabled};
ghost use Rattle.cycle_walks.specs.Each.{Below, Backed, Walking, turns_of, going};
ghost use Rattle.cycle_walks.specs.Along.{turns_along, Underway, Kept, Onward};

use permutation::{Permutation, Table};

// One more where the walk that is at v goes on.
#[inline(always)]
fn counted(count: usize, d: u64, v: u64) -> usize
    requires { count < 2 ^ 32 }
    ensures { result ≡ cond (leb d v) (count + 1) count }
{
    if d <= v {
        return count + 1;
    }
    count
}

// Takes the first turn of the walks of xs[i] at ends[i], and writes the places of those that go on; answers how many these are.
fn first_turns(t: Table, xs: &[u64], ends: &mut [u64], places: &mut [usize; 256]) -> usize
    requires { (length xs.now ≡ length ends.old) × (length ends.old ≤ 256) × Below t.of.d (length ends.old) xs.now }
    ensures upper_bound { (result ≤ length ends.old) × (take result places.new ≡ going t.entry.of.d ends.new (length ends.old) 0) }
    ensures below { let p = t.entry.of in let n = length ends.old in Below (4 ^ p.h) n ends.new × Walking p.key p.d n xs.now ends.new n }
{
    let mut left: usize = 0;
    for (i, x) in xs.iter().enumerate() {
        let [v] = t.undone([*x]);
        ends[i] = v;
        places[left] = i;
        left = counted(left, t.of.d, v);
    }
    left
}

// Takes one more turn of the walks that go on, whose places come first, and writes the places of those that still do; answers how many these are.
fn next_turns(t: Table, left: usize, ends: &mut [u64], places: &mut [usize; 256]) -> usize
    requires { let n = length ends.old in (n ≤ 256) × (left ≤ n) × Below (4 ^ t.of.h) n ends.old × (take left places.old ≡ going t.of.d ends.old n 0) }
    ensures upper_bound { let p = t.entry.of in let n = length ends.old in (result ≤ left) × (take result places.new ≡ going p.d ends.new n 0) × Below (4 ^ p.h) n ends.new }
    ensures by_index { let p = t.entry.of in let n = length ends.old in (xs : List ℕ) (m : ℕ) → Below p.d n xs → Walking p.key p.d n xs ends.old m → Walking p.key p.d n xs ends.new (m + left) }
{
    let mut still: usize = 0;
    for at in 0..left {
        let i = places[at];
        let [v] = t.undone([ends[i]]);
        ends[i] = v;
        places[still] = i;
        still = counted(still, t.of.d, v);
    }
    still
}

// Takes walks side by side, of xs[i] at ends[i]; answers how many turns they took.
fn side_by_side(t: Table, xs: &[u64], ends: &mut [u64]) -> u64
    requires { (length xs.now ≡ length ends.old) × (length ends.old ≤ 256) × Below t.of.d (length ends.old) xs.now }
    ensures { let p = t.entry.of in let n = length ends.old in (result ≡ turns_of p.key p.d n xs.now) × Backed p.key p.d n xs.now ends.new }
{
    let mut places = [0usize; 256];
    let mut left = first_turns(t, xs, ends, &mut places);
    let mut turns = xs.len() as u64;
    while 0 < left {
        let still = next_turns(t, left, ends, &mut places);
        turns += left as u64;
        left = still;
    }
    turns
}

// Takes walks one after the other, of xs[i] at ends[i]; answers how many turns they took.
fn one_by_one(p: Permutation, xs: &[u64], ends: &mut [u64]) -> u64
    requires { (length xs.now ≡ length ends.old) × (length ends.old ≤ 256) × Below p.d (length ends.old) xs.now }
    ensures { let n = length ends.old in (result ≡ turns_of p.key p.d n xs.now) × Backed p.key p.d n xs.now ends.new }
{
    let mut turns: u64 = 0;
    for (i, x) in xs.iter().enumerate() {
        let walk = p.backward(*x);
        ends[i] = walk.value;
        turns += walk.turns;
    }
    turns
}

// Backward P of each of n numbers below d, 256 at the most: of xs[i] at ends[i]. Answers how many turns the walks took. The table is empty, or has
// all values of the round function.
pub fn backward_each(
    key: [u32; 8],
    table: &[u16],
    d: u64,
    n: usize,
    xs: &[u64],
    ends: &mut [u64],
) -> u64
    requires le_d { (1 ≤ d) × (d ≤ 1048576) × Tabled key (half d) table.now × (n ≤ 256) × Below d n xs.now }
    requires n_in_bounds { (n ≤ length xs.now) × (n ≤ length ends.old) }
    ensures { (result ≡ turns_of key d n xs.now) × Backed key d n xs.now ends.new }
{
    let p = Permutation::new(key, d);
    let xs = &xs[..n];
    let ends = &mut ends[..n];
    match p.over(table) {
        Some(t) => side_by_side(t, xs, ends),
        None => one_by_one(p, xs, ends),
    }
}

// The row behind a row below d; behind the last comes the first.
pub fn next_row(d: u64, row: u64) -> u64
    requires { (d ≤ 1048576) × (row < d) }
    ensures { result ≡ (row + 1) % d }
{
    let next = row + 1;
    if next == d {
        return 0;
    }
    next
}

// Writes rows to vs, one behind the other, from the row of the number `from` on.
fn lay_rows(d: u64, from: u64, vs: &mut [u64])
    requires { (1 ≤ d) × (d ≤ 1048576) }
    ensures { (i : ℕ) → i < length vs.old → get_or vs.new i 0 ≡ (from + i) % d }
{
    let mut row = from % d;
    for v in vs.iter_mut() {
        *v = row;
        row = next_row(d, row);
    }
}

// Writes v to vs at the place behind the walks that go on, and answers how many these are with the walk that is at v.
#[inline(always)]
fn kept(d: u64, v: u64, still: usize, vs: &mut [u64]) -> usize
    requires { (still < length vs.old) × (length vs.old ≤ 1024) }
    ensures { Kept d v still vs.old result vs.new }
{
    vs[still] = v;
    counted(still, d, v)
}

// Takes one turn of the N walks from place `at` of n on and, where they go on, moves them behind the first `still` of vs, which go on too; answers how
// many then do.
#[inline(always)]
fn turn_some<const N: usize>(t: Table, n: usize, at: usize, still: usize, vs: &mut [u64]) -> usize
    requires { (n ≤ length vs.old) × (length vs.old ≤ 1024) × (still ≤ at) × (at + N ≤ n) × Underway t.of.key t.of.d at n vs.old }
    ensures { let p = t.entry.of in Onward p.key p.d n vs.old still at result (at + N) vs.new }
{
    let mut us = [0u64; N];
    for k in 0..N {
        us[k] = vs[at + k];
    }
    let us = t.undone(us);
    let mut next = still;
    for u in us {
        next = kept(t.of.d, u, next, vs);
    }
    next
}

// Takes one turn of each of n walks, which are at the first n of vs, four at a time; moves those that go on to the front, and answers how many these are.
fn turn_each(t: Table, n: usize, vs: &mut [u64]) -> usize
    requires { (n ≤ length vs.old) × (length vs.old ≤ 1024) × Underway t.of.key t.of.d 0 n vs.old }
    ensures { let p = t.entry.of in (result ≤ n) × Underway p.key p.d 0 result vs.new × (n + turns_of p.key p.d result vs.new ≡ turns_of p.key p.d n vs.old) }
{
    let mut still: usize = 0;
    let mut at: usize = 0;
    while at + 4 <= n {
        still = turn_some::<4>(t, n, at, still, vs);
        at += 4;
    }
    while at < n {
        still = turn_some::<1>(t, n, at, still, vs);
        at += 1;
    }
    still
}

// How many turns the walks back from vs take. It writes over vs.
fn turns_of(t: Table, vs: &mut [u64]) -> u64
    requires { (length vs.old ≤ 1024) × Below t.of.d (length vs.old) vs.old }
    ensures { let p = t.entry.of in result ≡ turns_of p.key p.d (length vs.old) vs.old }
{
    let mut left = vs.len();
    let mut taken: u64 = 0;
    while 0 < left {
        let still = turn_each(t, left, vs);
        taken += left as u64;
        left = still;
    }
    taken
}

// What turns_back answers, over a table of all values of the round function, in groups of 1,024 walks.
fn turns_in_groups(t: Table, from: u64, n: u64) -> u64
    requires { (from < 2 ^ 32) × (n ≤ 16777216) }
    ensures { let p = t.entry.of in result ≡ turns_along p.key p.d from n }
{
    let mut vs = [0u64; 1024];
    let mut turns: u64 = 0;
    let mut done: u64 = 0;
    while done < n {
        let m = (n - done).min(1024);
        let group = &mut vs[..m as usize];
        lay_rows(t.of.d, from + done, group);
        turns += turns_of(t, group);
        done += m;
    }
    turns
}

// What turns_back answers, walk after walk with no table.
fn turns_alone(p: Permutation, from: u64, n: u64) -> u64
    requires { (from < 2 ^ 32) × (n ≤ 16777216) }
    ensures { result ≡ turns_along p.key p.d from n }
{
    let mut turns: u64 = 0;
    let mut row = from % p.d;
    for _i in 0..n {
        let walk = p.backward(row);
        turns += walk.turns;
        row = next_row(p.d, row);
    }
    turns
}

// How many turns the walks back from n rows take, one behind the other from the row of the number `from` on, `from` modulo d; behind the last row comes
// the first. The table is empty, or has all values of the round function.
pub fn turns_back(key: [u32; 8], table: &[u16], d: u64, from: u64, n: u64) -> u64
    requires { (1 ≤ d) × (d ≤ 1048576) × Tabled key (half d) table.now × (from < 2 ^ 32) × (n ≤ 16777216) }
    ensures { result ≡ turns_along key d from n }
{
    let p = Permutation::new(key, d);
    match p.over(table) {
        Some(t) => turns_in_groups(t, from, n),
        None => turns_alone(p, from, n),
    }
}
