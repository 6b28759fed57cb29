//! The transfers of a net as the star of its matrix.
ghost use Rattle.std.specs.Prelude.{IfErr, IfOk};
ghost use Rattle.net_matrices.specs.TransferMatrices.{AreTransfers, IsStarOfNet, IsWhyNoTransfers};

use crate::laws::transfers_are_stars;
use crate::places::matrix_of_net;
use dioid_matrix::{Matrix, MatrixRefused};
use series_ops::Gain;
use std::alloc::Global;
use teg_check::LiveNet;

/// The transfer series between each two transitions of a live net, in one matrix: the star of
/// [`matrix_of_net`] (chapters 5 and 6). The entry in row t and column i has at shift k - 1 the
/// greatest time of a walk from the first firing of i to firing k of t, and `Early` where there is
/// none: of an input i that is what `transfer` of `teg_settle` tells. Rows that a matrix C chooses
/// and columns that a matrix B chooses make H = C A* B.
///
/// `Range` exactly where an operation of the recursion does not fit, as `star` names it, and no
/// other refusal but `OutOfMemory`, which comes only where no memory is found. It takes the time of
/// n^3 products of series for n transitions.
pub fn transfer_matrix(alloc: Global, held: &LiveNet) -> Result<Matrix<Gain>, MatrixRefused>
    ensures transfers { IfOk result (AreTransfers held.now) }
    ensures star { IfOk result (IsStarOfNet held.now) }
    ensures refused { IfErr result (IsWhyNoTransfers held.now) }
{
    transfers_are_stars();
    let net = held.net();
    net.rules();
    let matrix = matrix_of_net(alloc, net)?;
    matrix.star(alloc)
}
