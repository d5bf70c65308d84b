// The block changes of a call where they lie: the number of each one's block, and the hashes of what is handed over of it.
// Every function equals a definition of specs/ or of the scheme's Tokens at the standard primitives. Nothing is assumed.

#![tactic(auto)]

ghost use Rattle.std.specs.Prelude.{◌≡◌, ◌++◌, ◌+◌, ◌≤◌, replicate};
ghost use Rattle.counts.specs.Limits.{most_block_bytes};
ghost use Rattle.scheme.specs.Marks.{marks_in, deleted};
ghost use Rattle.scheme.specs.Tokens as T;
ghost use Rattle.standard.specs.Standard.{standard};
ghost use Rattle.block_changes.specs.BlockChanges as I;

mod several;

pub use several::Several;

// The block changes of a call, and the version and shape of its file: `count` changes of blocks of `size` bytes. They are those of blocks from number
// `first` on, added where `fresh` is true, else replaced; two buffers go with them, which have the old blocks (not read where `fresh` is true) and the
// new ones, block after block. Or, where `listed` is true, they are the items of a batch, and one buffer goes with them.
#[derive(Clone, Copy)]
pub struct BlockChanges {
    pub version: u64,
    pub rows: u64,
    pub positions: u64,
    pub size: u64,
    pub first: u64,
    pub count: u64,
    pub fresh: bool,
    pub listed: bool,
}

// Whether a block change comes alone, with its contents in two buffers.
pub fn alone(changes: BlockChanges) -> bool
    ensures { result ≡ I.alone changes }
{
    if changes.listed {
        return false;
    }
    changes.count == 1
}

// How many bytes are hashed before a block: those of key and index, and its mark where it has one.
pub fn head_bytes(version: u64) -> usize
    ensures { (result ≡ 36 + marks_in version) × (result ≤ 37) }
{
    36 + records::marks_in(version) as usize
}

// The hash of a deleted block at an index, under a hash key c: of its mark, where it has one, and zero bytes.
fn deleted_hash(c: [u8; 32], index: u64, version: u64, size: u64) -> [u8; 32]
    requires { size ≤ most_block_bytes }
    ensures { result ≡ T.block_hash standard c index (deleted version ++ replicate size 0) }
{
    let gone = [1u8; 1];
    let zeros = [0u8; 4096];
    let k = records::marks_in(version) as usize;
    let end = size as usize;
    let content = tokens::Content {
        mark: &gone[..k],
        block: &zeros[..end],
    };
    tokens::block_hash(c, index, content)
}
