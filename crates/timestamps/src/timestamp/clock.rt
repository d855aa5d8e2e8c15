// Times of the day, and their text: hh:mm:ss.
ghost use Rattle.std.specs.Prelude.{◌<◌};

pub(super) mod text;

// A time by the seconds of the day that have passed.
#[derive(Clone, Copy, Debug, PartialEq, Eq)]
pub struct TimeOfDay {
    pub(super) second: u32,
    ghost within: { second < 86400 },
}
