// The same vectors side by side: a message in three of sixteen lanes, and the first words of sixteen blocks of ChaCha20.
ghost use Rattle.std.specs.Prelude.{◌≡◌, ◌+◌, ◌*◌, ◌%◌, ◌≤◌, length};

use std::io;

// Writes a message's last bytes and its padding to the n bytes from `a` on; the whole message has so many bits.
fn lay(p: &mut [u8], a: usize, n: usize, m: &[u8], bits: u64)
    requires { (length m.now + 9 ≤ n) × (a + n ≤ length p.old) }
{
    let end = [0x80u8; 1];
    octets::copy(p, a, m);
    octets::copy(p, a + m.len(), &end);
    octets::put_be::<8>(p, a + n - 8, bits);
}

// A line with the four bytes of a word.
fn word_line<R: Print>(rt: &R, name: &[u8], x: u32) -> io::Result<()> {
    let mut s = [0u8; 4];
    octets::put_le::<4>(&mut s, 0, u64::from(x));
    crate::print::line(rt, name, &s)
}

// Lines with the hashes of three messages, in the lanes 0, 6 and 15. The message of lane k stands in place k, of n bytes of p, but for `gap` bytes of
// `far`, behind its first 64.
fn show<R: Print>(rt: &R, name: &[u8], p: &[u8], n: usize, far: &[u8], gap: usize) -> io::Result<()>
    requires { (64 ≤ n) × (n % 64 ≡ 0) × (16 * n ≤ length p.now) × (gap % 64 ≡ 0) × (gap ≤ length far.now) }
{
    let at = [0usize; 16];
    let s = sha256_many::hash_each(p, n, far, &at, gap, 16);
    let first = sha256_many::digest_of(&s, 0);
    let sixth = sha256_many::digest_of(&s, 6);
    let last = sha256_many::digest_of(&s, 15);
    crate::print::line(rt, name, &first)?;
    crate::print::line(rt, name, &sixth)?;
    crate::print::line(rt, name, &last)
}

// Writes the same message to the places 0, 6 and 15.
fn lay_three(p: &mut [u8], n: usize, m: &[u8], bits: u64)
    requires { (length m.now + 9 ≤ n) × (16 * n ≤ length p.old) }
{
    lay(p, 0, n, m, bits);
    lay(p, 6 * n, n, m, bits);
    lay(p, 15 * n, n, m, bits);
}

// Messages of SHA-256 in lanes: of one block, of two, and a thousand zeros of which most lie elsewhere.
fn hashes<R: Print>(rt: &R) -> io::Result<()> {
    let zeros = [0u8; 1000];
    let mut one = [0u8; 1024];
    lay_three(&mut one, 64, b"abc", 24);
    show(rt, b"in lanes: abc", &one, 64, &zeros, 0)?;
    let mut two = [0u8; 2048];
    let letters = b"abcdbcdecdefdefgefghfghighijhijkijkljklmklmnlmnomnopnopq";
    lay_three(&mut two, 128, letters, 448);
    show(rt, b"in lanes: 56 letters", &two, 128, &zeros, 0)?;
    let mut three = [0u8; 2048];
    lay_three(&mut three, 128, &zeros[..104], 8000);
    show(rt, b"in lanes: 1000 zeros", &three, 128, &zeros, 896)
}

// The first four bytes of the blocks of RFC 8439, A.1, that have a key of zeros: blocks 1, 2 and 5, in the lanes 0, 6 and 15.
fn blocks<R: Print>(rt: &R) -> io::Result<()> {
    let key = [0u32; 8];
    let mut counters = [9u32; 16];
    let mut lasts = [7u32; 16];
    counters[0] = 0;
    lasts[0] = 0;
    counters[6] = 1;
    lasts[6] = 0;
    counters[15] = 0;
    lasts[15] = 0x02000000;
    let words = chacha20_lanes::firsts(key, counters, lasts);
    word_line(rt, b"in lanes: RFC 8439 A.1 1", words[0])?;
    word_line(rt, b"in lanes: RFC 8439 A.1 2", words[6])?;
    word_line(rt, b"in lanes: RFC 8439 A.1 5", words[15])
}

// Writes the lines.
pub fn run<R: Print>(rt: &R) -> io::Result<()> {
    hashes(rt)?;
    blocks(rt)
}
