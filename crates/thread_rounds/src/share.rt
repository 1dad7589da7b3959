//! Which frames a worker serves.

ghost use Rattle.std.specs.Prelude.{◌<◌};

/// Which frames of each pass a worker serves, by number from 1: `first`, and from there each `stride` further on. Worker k of n
/// has the first frame k and the stride n.
#[derive(Clone, Copy, Debug)]
pub struct Share {
    pub first: u64,
    pub stride: u64,
    ghost from_one: { 0 < first },
    ghost moves_on: { 0 < stride },
}
