// Where reading stands.
ghost use Rattle.std.specs.Prelude.{◌+◌, ◌<◌, ◌^◌, length};

/// The place of the next byte, and the bytes that are left.
#[derive(Clone, Copy)]
pub struct Cursor<'a> {
    pub place: u64,
    pub left: &'a [u8],
    ghost fits: { place + length left.now < 2 ^ 64 },
}
