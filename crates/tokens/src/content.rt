// The content of a block, which is what is hashed of it.
ghost use Rattle.std.specs.Prelude.{◌^◌, ◌≤◌, ◌<◌, length};

// A block's mark, no byte in version 1 and one in the others, and its bytes.
#[derive(Clone, Copy)]
pub struct Content<'a> {
    pub mark: &'a [u8],
    pub block: &'a [u8],
    pub ghost lone: { length mark.now ≤ 1 },
    pub ghost small: { length block.now < 2 ^ 60 },
}
