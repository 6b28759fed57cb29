//! The matrix of the places without tokens, by upstream transition and then downstream, and its
//! star: the greatest times of paths without tokens.
ghost use Rattle.std.specs.Prelude.{◌*◌, IfOk};
ghost use Rattle.teg_check.specs.Ranks.{IsRanking};
ghost use Rattle.teg_form.specs.Times.{AreFreeHolds, AreFreeTimes};

use dioid::Date;
use dioid_matrix::{Matrix, MatrixRefused};
use std::alloc::{AllocError, Global};
use teg_check::Live;
use teg_net::{Net, OutOfMemory};

// The greatest holding times of the places without tokens, by rows of upstream transitions.
fn free_holds(alloc: Global, net: &Net) -> Result<Vec<Date>, AllocError>
    ensures { IfOk result (λ holds. AreFreeHolds net.now holds.items) }
{
    let count = net.transitions().len();
    let mut holds = vec![in alloc; Date::Early; count * count]?;
    for place in net.places() {
        if place.tokens == 0 {
            let at = place.from.index as usize * count + place.to.index as usize;
            holds[at] = holds[at].later(Date::At(i128::from(place.hold)));
        }
    }
    Ok(holds)
}

// The greatest times of the paths without tokens, by rows of the transitions from which they lead:
// `Early` where there is none, and 0 or more on the diagonal, where the path is empty.
pub(crate) fn free_times(alloc: Global, net: &Net, live: &Live) -> Result<Matrix<Date>, OutOfMemory>
    requires stands { IsRanking net.now live.now }
    ensures { IfOk result (λ times. AreFreeTimes net.now times) }
{
    let count = net.transitions().len();
    let holds = free_holds(alloc, net)?;
    let Ok(matrix) = Matrix::new(count, count, holds) else {
        unreachable!()
    };
    match matrix.star(alloc) {
        Ok(times) => Ok(times),
        Err(MatrixRefused::OutOfMemory) => Err(OutOfMemory),
        Err(MatrixRefused::Count { .. }) => unreachable!(),
        Err(MatrixRefused::Shape { .. }) => unreachable!(),
        Err(MatrixRefused::Range { .. }) => unreachable!(),
    }
}
