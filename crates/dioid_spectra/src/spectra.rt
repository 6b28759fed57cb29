//! The eigenvalue of a matrix of dates with an eigenvector, by the pace of its net.
ghost use Rattle.std.specs.Prelude.{◌≡◌, ◌<◌, ℕ, IfErr, IfOk, All, length, map, slice_index_or, pos};
ghost use Rattle.pace_laws.specs.TightPotentials.{AreTightPotentials};
ghost use Rattle.teg_net.specs.Certificates.{potential_at};
ghost use Rattle.teg_net.specs.Circuits.{IsLive};
ghost use Rattle.teg_net.specs.Parts.{to_of};
ghost use Rattle.teg_parts.specs.Partitions.{AreParts};
ghost use Rattle.dioid_spectra.specs.Eigenvectors.{IsCriticalCircuit, IsEigenOf, IsIrreducible};
ghost use Rattle.dioid_spectra.specs.MatrixNets.{AttainsRatio, IsNear, IsRatioOfCircuit, IsWhyNoSpectrum, value_of};

use crate::eigenvectors::EigenValue;
use crate::nets::{lowest, net_of};
use crate::refusals::NoSpectrum;
use dioid::Date;
use dioid_matrix::Matrix;
use std::alloc::{AllocError, Global};
use teg_check::ranks_of;
use teg_howard::last_round;
use teg_net::{Circuit, Net, OutOfMemory, PartAnswer, Potential, Ratio};
use teg_parts::{Parts, split};

/// An eigenvalue of a matrix of dates, with an eigenvector (chapter 3).
#[derive(Debug, Drop)]
pub struct Spectrum {
    /// The greatest mean of a circuit of the matrix.
    pub value: EigenValue,
    /// A number for each row, in the user's unit times the steps of the value.
    pub vector: Vec<i128>,
    /// Rows around a circuit of this mean, in order: each has a number in the column of the one
    /// before it, and the first in that of the last.
    pub circuit: Vec<usize>,
}

// The greatest ratio of a net of one part that has a place, a circuit with it, and potentials that
// a place meets at each transition.
fn tight_potentials(
    alloc: Global,
    net: &Net,
    parts: &Parts,
) -> Result<(Ratio, Circuit, Vec<Potential>), OutOfMemory>
    requires live { IsLive net.now }
    requires parts { AreParts net.now parts.now }
    requires one { length parts.now.inner ≡ 1 }
    requires place { 0 < length net.now.places }
    ensures tight { IfOk result (λ w. AreTightPotentials net.now parts.now.part_of 0
        w.0.time w.0.tokens (potential_at w.2.items)) }
    ensures circuit { IfOk result (λ w. AttainsRatio net.now w.0 w.1.places.items) }
    ensures ratio { IfOk result (λ w. IsRatioOfCircuit w.0) }
{
    net.rules();
    let live = ranks_of(alloc, net)?;
    match last_round(alloc, net, &live, parts, 0)? {
        PartAnswer::NoCircuit => unreachable!(),
        PartAnswer::Best {
            ratio,
            circuit,
            potentials,
        } => Ok((ratio, circuit, potentials)),
    }
}

// The rows into which the places of the circuit lead.
fn rows_of(alloc: Global, net: &Net, circuit: &Circuit) -> Result<Vec<usize>, AllocError>
    requires { All (λ p. p.index < length net.now.places) circuit.now.places.items }
    ensures { IfOk result (λ rows. rows.items ≡ map (to_of net.now) circuit.now.places.items) }
{
    let mut rows = Vec::new(alloc);
    for id in &circuit.places {
        rows.push(net.place(*id).to.index())?;
    }
    Ok(rows)
}

// The potential of this number, 0 where none is told.
fn potential_of(potentials: &[Potential], row: usize) -> i128
    ensures { result ≡ potential_at potentials.now row }
{
    for potential in potentials {
        if potential.transition.index as usize == row {
            return potential.value;
        }
    }
    0
}

// The potentials of so many rows, in order.
fn vector_of(alloc: Global, potentials: &[Potential], rows: usize) -> Result<Vec<i128>, AllocError>
    ensures count { IfOk result (λ vector. length vector.items ≡ rows) }
    ensures numbers { IfOk result (λ vector. (i : ℕ) → i < rows
        → slice_index_or vector.items i (pos 0) ≡ potential_at potentials.now i) }
{
    let mut vector = Vec::new(alloc);
    for row in 0..rows {
        vector.push(potential_of(potentials, row))?;
    }
    Ok(vector)
}

// The eigenvalue of the ratio of the net by the least number.
fn value_of(low: i128, ratio: Ratio) -> EigenValue
    requires low { IsNear low }
    requires ratio { IsRatioOfCircuit ratio }
    ensures time { result.time ≡ value_of low ratio }
    ensures steps { result.steps ≡ ratio.tokens }
{
    EigenValue {
        time: i128::from(ratio.time()) + i128::from(ratio.tokens()) * low,
        steps: ratio.tokens(),
    }
}

/// The eigenvalue of a matrix of dates whose rows all reach each other, with an eigenvector
/// (chapter 3): the matrix, each entry `steps` times, makes of the vector the vector with the time
/// added. There is no other eigenvalue: it is the greatest mean of the numbers along a circuit, and
/// one with this mean is told.
///
/// Refused exactly where the matrix is not square, has an entry `Never`, a number of a magnitude
/// above 10^18, no number, two numbers that differ by more than 1,000,000,000, more than 400 rows
/// or 4,000 numbers, or a row that does not reach some other; `OutOfMemory` comes only where no
/// memory is found. It takes time of the order of the square of the entries for the net, and of the
/// rounds of policy iteration.
pub fn eigen(alloc: Global, a: &Matrix<Date>) -> Result<Spectrum, NoSpectrum>
    ensures eigen { IfOk result (λ found. IsEigenOf a.now found.value found.vector.items) }
    ensures critical { IfOk result (λ found. IsCriticalCircuit a.now found.value
        found.circuit.items) }
    ensures irreducible { IfOk result (λ _. IsIrreducible a.now) }
    ensures refused { IfErr result (IsWhyNoSpectrum a.now) }
{
    if a.rows() != a.columns() {
        return Err(NoSpectrum::NotSquare);
    }
    let Some(low) = lowest(a)? else {
        return Err(NoSpectrum::NoNumber);
    };
    let net = net_of(alloc, a, low)?;
    let parts = split(alloc, &net)?;
    if parts.count() != 1 {
        return Err(NoSpectrum::Reducible);
    }
    let (ratio, circuit, potentials) = tight_potentials(alloc, &net, &parts)?;
    let vector = vector_of(alloc, &potentials, a.rows())?;
    let circuit = rows_of(alloc, &net, &circuit)?;
    Ok(Spectrum {
        value: value_of(low, ratio),
        vector,
        circuit,
    })
}
