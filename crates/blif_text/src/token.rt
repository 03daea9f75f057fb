// A token of a netlist file.
ghost use Rattle.std.specs.Prelude.{◌+◌, ◌<◌, ◌^◌, length};

/// A token: the place of its first byte in the file, and its text, which ends before place 2^31.
#[derive(Clone, Copy)]
pub struct Token<'a> {
    pub start: usize,
    pub text: &'a [u8],
    ghost room: { start + length text.now < 2 ^ 31 },
}
