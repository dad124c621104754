// A variable and the position at which it stands.
ghost use Rattle.std.specs.Prelude.{◌<◌};

#[derive(Clone, Copy)]
pub struct Occurrence {
    pub variable: u8,
    pub position: usize,
    ghost known: { position < 128 },
}
