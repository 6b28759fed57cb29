//! The limit of a settled form, as the searches take it.
ghost use Rattle.std.specs.Prelude.{◌≡◌, ◌≤◌, IfSome};
ghost use Rattle.teg_settle.specs.LimitRefusals.{greatest_limit};

use teg_outcome::Limit;

// The number of a limit, where there is one.
pub(crate) fn most_of(limit: Option<Limit>) -> Option<u32>
    ensures value { result ≡ limit }
    ensures few { IfSome result (λ most. most ≤ greatest_limit) }
{
    match limit {
        Some(limit) => Some(limit.get() as u32),
        None => None,
    }
}
