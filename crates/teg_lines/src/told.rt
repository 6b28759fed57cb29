//! How things are told by a line each, and the lines of a list of them.
ghost use Rattle.std.specs.Prelude.{◌≡◌, ◌++◌, [], All, IfOk, map, string_bytes};
ghost use Rattle.teg_text.specs.Lines.{line_then, written};

use std::alloc::AllocError;
use teg_net::Net;

/// The line by which a thing of the type `T` is told, with names of a net. The line is a type of
/// its own, so that a crate can tell the things of another.
pub trait LineOf<T> {
    ghost use Rattle.std.specs.Prelude.{ℕ, List};
    ghost use Rattle.teg_net.specs.Nets.{NetLists};

    // its line
    ghost line: { NetLists → T → List (List ℕ) };

    // what it names is in the net
    ghost is_there: { NetLists → T → Type 0 };

    // what its numbers keep
    ghost is_kept: { T → Type 0 };

    /// Appends its line. What it names is in the net; `AllocError` comes only where no memory is
    /// found.
    fn push(item: &T, text: &mut String, net: &Net) -> Result<(), AllocError>
        requires { is_there net.now item.now }
        ensures text { IfOk result (λ _. string_bytes text.new ≡
            string_bytes text.old ++ line_then (line net.now item.now) []) }
        ensures kept { IfOk result (λ _. is_kept item.now) };
}

/// Appends the line of each, in their order. What they name is in the net; `AllocError` comes only
/// where no memory is found.
#[tactic(auto, using(teg_text::proofs::Joining::written_map))]
pub fn push_each<T, L: LineOf<T>>(
    text: &mut String,
    net: &Net,
    items: &[T],
) -> Result<(), AllocError>
    requires { All (L.is_there net.now) items.now }
    ensures text { IfOk result (λ _. string_bytes text.new ≡
        string_bytes text.old ++ written (map (L.line net.now) items.now)) }
    ensures kept { IfOk result (λ _. All L.is_kept items.now) }
{
    for item in items {
        L::push(item, text, net)?;
    }
    Ok(())
}
