// A digest into which messages are hashed as they come, sixteen at once. A message is a head of some bytes, then a block of a lent buffer. It waits in
// one of sixteen places, and when the last is taken all are hashed side by side. Of a longer message a place has only the first 64 bytes and what is
// behind the last whole block of 64: those between are hashed where they lie.
// Every function equals a definition of specs/ over SHA-256. Nothing is assumed.

#![tactic(auto)]

ghost use Rattle.std.specs.Prelude.{◌≡◌, List, ◌++◌, ℕ, ◌+◌, ◌≤◌, ◌<◌, length, get_or};
ghost use Rattle.octets.specs.Octets.{xors};
ghost use Rattle.sha256.specs.Sha256 as S;
ghost use Rattle.sha256_lanes.specs.Rounds.{Inside};
ghost use Rattle.hash_queue.specs.declared.Form.{Form};
ghost use Rattle.hash_queue.specs.Waiting.{Shaped, Cut, places, said, short, hashes, Ready, held};

mod kind;

pub use kind::Kind;

// How many messages are hashed side by side.
const PLACES: usize = 16;

// The bytes of all places, of which one has 192 at the most.
pub const ROOM: usize = 3072;

// A digest, and how many messages wait to be hashed into it.
#[derive(Clone, Copy)]
pub struct Sum {
    pub x: [u8; 32],
    pub fill: usize,
}

// A sum, and the places of the messages that wait: where in the lent buffer lies what is left out of each, and the rest of it.
#[derive(Clone, Copy)]
pub struct Queue {
    pub sum: Sum,
    pub at: [usize; 16],
    pub places: [u8; ROOM],
}

// How messages of one length are cut: `gap` bytes of the block behind its first `cut` are hashed where they lie. What is left has `long` bytes with
// the padding behind it.
#[derive(Clone, Copy)]
pub struct Form {
    pub cut: usize,
    pub gap: usize,
    pub long: usize,
}

// Writes a message but for what is hashed where it lies: the head, what is left of the block from `a` on in `far`, and the padding.
fn lay(message: &mut [u8], head: &[u8], far: &[u8], a: usize, size: usize, f: Form, pad: &[u8])
    requires { Cut f (length head.now) size × (a + size ≤ length far.now) × (pad.now ≡ S.padding (length head.now + size)) × (length message.old ≡ f.long) }
    ensures { message.new ≡ short head.now a size f far.now ++ pad.now }
{
    let h = head.len();
    let b = a + f.cut;
    let d = b + f.gap;
    let e = a + size;
    octets::copy(message, 0, head);
    octets::copy(message, h, &far[a..b]);
    octets::copy(message, h + f.cut, &far[d..e]);
    octets::copy(message, h + size - f.gap, pad);
}

// Where what is left out of each of the first `fill` messages lies. A lane without a message has the first one's, so that nothing is read of the lent
// buffer but the blocks of messages.
fn places_of(at: &[usize; 16], fill: usize) -> [usize; 16]
    requires { (1 ≤ fill) × (fill ≤ places) }
    ensures { ((i : ℕ) → i < fill → get_or result i 0 ≡ get_or at.now i 0) × ((i : ℕ) → fill ≤ i → i < places → get_or result i 0 ≡ get_or at.now 0 0) }
{
    let mut own = [at[0]; 16];
    for k in 0..fill {
        own[k] = at[k];
    }
    own
}

impl Queue {
    // A queue in which nothing waits, for the digest x.
    pub fn new(x: [u8; 32]) -> Queue
        ensures { (f : Form) (far : List ℕ) → Ready result f far × (held result f far ≡ x) }
    {
        Queue {
            sum: Sum { x, fill: 0 },
            at: [0; 16],
            places: [0; ROOM],
        }
    }

    // Starts over with the digest x: what waits is dropped.
    pub fn restart(&mut self, x: [u8; 32])
        ensures { (f : Form) (far : List ℕ) → Ready self.new f far × (held self.new f far ≡ x) }
    {
        self.sum = Sum { x, fill: 0 };
        self.at = [0; 16];
    }

    // The digest with the hashes of the first `fill` messages, made at once: in as many lanes, or up to three more.
    fn with_hashes(&self, f: Form, far: &[u8], fill: usize) -> [u8; 32]
        requires { (1 ≤ fill) × (fill ≤ places) × Shaped f × Inside far.now self.now.at f.gap places }
        ensures { result ≡ xors self.now.sum.x (hashes self.now.places f.long far.now self.now.at f.gap fill) }
    {
        let lanes = (fill + 3) / 4 * 4;
        let own = places_of(&self.at, fill);
        let s = sha256_many::hash_each(&self.places, f.long, far, &own, f.gap, lanes);
        let mut y = self.sum.x;
        for k in 0..fill {
            let d = sha256_many::digest_of(&s, k);
            let z = octets::xor(y, d);
            y = z;
        }
        y
    }

    // Adds the hash of one more message: a head, and the bytes of `far` from `a` on that make a block.
    pub fn add(&mut self, kind: &Kind, head: &[u8], far: &[u8], a: usize)
        requires { Ready self.old kind.now.form far.now × (length head.now ≡ kind.now.head) × (a + kind.now.size ≤ length far.now) }
        ensures { Ready self.new kind.now.form far.now × (held self.new kind.now.form far.now ≡ xors (held self.old kind.now.form far.now) (S.sha256 (said head.now a kind.now.size far.now))) }
    {
        let f = kind.form;
        let fill = self.sum.fill;
        let from = fill * f.long;
        let to = from + f.long;
        let len = kind.padding.len;
        lay(
            &mut self.places[from..to],
            head,
            far,
            a,
            kind.size,
            f,
            &kind.padding.bytes[..len],
        );
        self.at[fill] = a + f.cut;
        if fill + 1 < PLACES {
            self.sum.fill = fill + 1;
            return;
        }
        let y = self.with_hashes(f, far, PLACES);
        self.sum = Sum { x: y, fill: 0 };
    }

    // Adds a hash that was made elsewhere.
    pub fn add_hash(&mut self, h: [u8; 32])
        ensures { (f : Form) (far : List ℕ) → (Ready self.old f far → Ready self.new f far) × (held self.new f far ≡ xors (held self.old f far) h) }
    {
        self.sum.x = octets::xor(self.sum.x, h);
    }

    // The digest with the messages that wait.
    pub fn settled(&self, kind: &Kind, far: &[u8]) -> [u8; 32]
        requires { Ready self.now kind.now.form far.now }
        ensures { result ≡ held self.now kind.now.form far.now }
    {
        let fill = self.sum.fill;
        if fill == 0 {
            return self.sum.x;
        }
        self.with_hashes(kind.form, far, fill)
    }
}
