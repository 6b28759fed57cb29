//! How far rows are to lead.
ghost use Rattle.std.specs.Prelude.{◌≤◌};
ghost use Rattle.teg_net.specs.Limits.{greatest_firing_number, most_rows};

// The last number, and how many rows may be made.
#[derive(Clone, Copy, Drop)]
pub(crate) struct Extent {
    pub(crate) number: u64,
    pub(crate) room: u64,
    ghost last: { number ≤ greatest_firing_number },
    ghost some: { 1 ≤ room },
    ghost few: { room ≤ most_rows },
}
