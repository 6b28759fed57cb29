//! The text of releases without end, by input lists.
ghost use Rattle.std.specs.Prelude.{◌≡◌, ◌<◌, ◌++◌, ◌∷◌, [], All, IfOk, flat_map, length, map, string_bytes};
ghost use Rattle.std.specs.Fmt.{decimal};
ghost use Rattle.teg_text.specs.Lines.{further_then, line_then, written};
ghost use Rattle.forever_check.specs.ShownReleases.{going_words, release_line, released_lines};

use std::alloc::{AllocError, Global};
use teg_net::{Again, InputList, Net};

// Appends dates in their order, each behind a blank.
fn push_numbers(text: &mut String, dates: &[u64]) -> Result<(), AllocError>
    ensures { IfOk result (λ _. string_bytes text.new
        ≡ string_bytes text.old ++ flat_map (λ date. 32 ∷ decimal date) dates.now) }
{
    for date in dates {
        write!(text, " {date}")?;
    }
    Ok(())
}

// Appends the end of the line of an input whose dates go on so.
fn push_going(text: &mut String, dates: &[u64], again: Again) -> Result<(), AllocError>
    ensures { IfOk result (λ _. string_bytes text.new
        ≡ string_bytes text.old ++ further_then (going_words dates.now again) []) }
{
    push_numbers(text, dates)?;
    let (every, gap) = (again.every, again.gap);
    write!(text, " period {every} step {gap}\n")
}

// Appends the line of an input with this list.
fn push_release(text: &mut String, net: &Net, list: &InputList) -> Result<(), AllocError>
    requires { list.now.transition.index < length net.now.transitions }
    ensures { IfOk result (λ _. string_bytes text.new
        ≡ string_bytes text.old ++ line_then (release_line net.now list.now) []) }
{
    let name = net.transitions()[list.transition.index()].name.as_str();
    match list.again {
        None => write!(text, "input {name} free\n"),
        Some(again) => {
            write!(text, "input {name}")?;
            push_going(text, list.dates.as_slice(), again)
        }
    }
}

// Appends the line of each input.
fn push_releases(text: &mut String, net: &Net, lists: &[InputList]) -> Result<(), AllocError>
    requires { All (λ l. l.transition.index < length net.now.transitions) lists.now }
    ensures { IfOk result (λ _. string_bytes text.new
        ≡ string_bytes text.old ++ written (map (release_line net.now) lists.now)) }
{
    for list in lists {
        push_release(text, net, list)?;
    }
    Ok(())
}

// The text of releases by these lists.
pub(crate) fn releases_text(
    alloc: Global,
    net: &Net,
    lists: &[InputList],
) -> Result<String, AllocError>
    requires { All (λ l. l.transition.index < length net.now.transitions) lists.now }
    ensures { IfOk result (λ text. string_bytes text ≡ written (released_lines net.now lists.now)) }
{
    let mut text = String::from_str(alloc, "latest inputs forever\n")?;
    push_releases(&mut text, net, lists)?;
    Ok(text)
}
