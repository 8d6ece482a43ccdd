// What the first two records of a case state.
ghost use Rattle.std.specs.Prelude.{◌<◌, ◌^◌};

/// What the first two records of a case state: the version of the format, the last closing day and the last house day.
#[derive(Clone, Copy)]
pub(crate) struct Heading {
    pub(crate) version: usize,
    pub(crate) horizon: usize,
    pub(crate) last: usize,
    ghost short_horizon: { horizon < 2 ^ 63 },
    ghost short_last: { last < 2 ^ 63 },
}
