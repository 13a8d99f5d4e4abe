ghost use Rattle.std.specs.Prelude.{◌+◌, ◌^◌, ◌<◌, length};

mod steps;

// What is left of a record in its caller's memory, and the offset at which that begins: a rule of the project wants the two
// in one struct.
#[derive(Drop)]
pub(crate) struct Reader<'a> {
    rest: &'a [u8],
    offset: u16,
    ghost fits: { offset + length rest.now < 2 ^ 16 },
}
