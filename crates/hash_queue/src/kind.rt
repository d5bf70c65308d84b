// Messages of one kind: how they are cut, and their padding.
ghost use Rattle.std.specs.Prelude.{◌≡◌, ◌+◌, ◌≤◌, length, take};
ghost use Rattle.sha256.specs.Sha256 as S;
ghost use Rattle.hash_queue.specs.Waiting.{Cut};

use crate::Form;

// Messages with a head of `head` bytes and a block of `size` bytes: how they are cut, and what is appended to each.
#[derive(Clone, Copy)]
pub struct Kind {
    pub head: usize,
    pub size: usize,
    pub form: Form,
    pub padding: sha256::Tail,
    pub ghost cut: { Cut form head size },
    pub ghost short: { padding.len ≤ 72 },
    pub ghost padded: { take padding.len padding.bytes ≡ S.padding (head + size) },
}

// How messages with a head of `head` bytes and a block of `size` bytes are cut, whose padding has `pad` bytes.
fn form_of(head: usize, size: usize, pad: usize) -> Form
    requires { (head ≤ 64) × (size ≤ 4096) × (pad ≡ length (S.padding (head + size))) }
    ensures { Cut result head size }
{
    let whole = head + size;
    if whole + pad <= 192 {
        return Form {
            cut: 0,
            gap: 0,
            long: whole + pad,
        };
    }
    let gap = whole / 64 * 64 - 64;
    Form {
        cut: 64 - head,
        gap,
        long: whole + pad - gap,
    }
}

impl Kind {
    // The messages with a head of `head` bytes and a block of `size` bytes.
    pub fn new(head: usize, size: usize) -> Kind
        requires { (head ≤ 64) × (size ≤ 4096) }
        ensures { (result.head ≡ head) × (result.size ≡ size) }
    {
        let padding = sha256::pad((head + size) as u64);
        let form = form_of(head, size, padding.len);
        Kind {
            head,
            size,
            form,
            padding,
        }
    }
}
