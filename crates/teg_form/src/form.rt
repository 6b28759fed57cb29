//! The form and its two lists.
ghost use Rattle.std.specs.Prelude.{◌≡◌, ◌↔◌, IfOk, IsTrue};
ghost use Rattle.teg_check.specs.Ranks.{IsRanking};
ghost use Rattle.teg_form.specs.StandardForms.{FormLists, IsStandardFormOf};

use crate::entries::{Entry, entries_of};
use crate::matrix::free_times;
use crate::stars::{StarEntry, stars_of};
use std::alloc::Global;
use std::marker::Model;
use teg_check::Live;
use teg_net::{Net, OutOfMemory};

/// The standard form of a net (chapter 2). Contracts see its two lists.
#[derive(Debug, Drop)]
pub struct Form {
    stars: Vec<StarEntry>,
    entries: Vec<Entry>,
}

impl Model for Form {
    ghost use Rattle.teg_form.specs.StandardForms.{FormLists};

    ghost Value = { FormLists };

    ghost view = { λ f. record { stars = f.stars.items; entries = f.entries.items } };
}

impl Form {
    /// For each pair of different transitions that a path without tokens joins, the greatest time
    /// of one, sorted by `to`, then `from`. It takes no memory.
    pub fn stars(&self) -> &[StarEntry]
        ensures { result.now ≡ self.now.stars }
    {
        &self.stars
    }

    /// For each pair of transitions and number of tokens, at least 1, for which there is a path
    /// whose first place has so many tokens and whose others have none, the greatest time of one,
    /// sorted by `to`, `from`, `tokens`. It takes no memory.
    pub fn entries(&self) -> &[Entry]
        ensures { result.now ≡ self.now.entries }
    {
        &self.entries
    }
}

/// The standard form of a live net (chapter 2): all its star entries and all its entries, and no
/// others, sorted. Only the net's own places count.
///
/// `OutOfMemory` comes only where no memory is found. It takes time of order n^3 + n p for n
/// transitions and p places.
pub fn standard_form(alloc: Global, net: &Net, live: &Live) -> Result<Form, OutOfMemory>
    requires stands { IsRanking net.now live.now }
    ensures form { IfOk result (λ form. IsStandardFormOf net.now form) }
    // A net has no other standard form.
    ensures one { IfOk result (λ form. (other : FormLists) → IsStandardFormOf net.now other → other
        ≡ form) }
{
    let times = free_times(alloc, net, live)?;
    let stars = stars_of(alloc, net, &times)?;
    let entries = entries_of(alloc, net, &times)?;
    Ok(Form { stars, entries })
}

// Whether the forms have the same lists.
fn are_alike(first: &Form, second: &Form) -> bool
    ensures { IsTrue result ↔ first.now ≡ second.now }
{
    first.stars() == second.stars() && first.entries() == second.entries()
}

/// Whether this is the standard form of the live net (chapter 2), as [`standard_form`] makes it: it
/// is made once more, and the two compared. `OutOfMemory` comes only where no memory is found. It
/// takes the time of [`standard_form`].
pub fn is_standard_form_of(
    alloc: Global,
    net: &Net,
    live: &Live,
    form: &Form,
) -> Result<bool, OutOfMemory>
    requires stands { IsRanking net.now live.now }
    ensures { IfOk result (λ yes. IsTrue yes ↔ IsStandardFormOf net.now form.now) }
{
    let own = standard_form(alloc, net, live)?;
    Ok(are_alike(&own, form))
}
