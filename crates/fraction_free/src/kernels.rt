//! A vector of the kernel, or the rank; and a basis of the kernel.

ghost use Rattle.std.specs.Prelude.{◌≡◌, ◌<◌, ◌≤◌, length, List, All};
ghost use Rattle.ring_laws.specs.Meaning.{Meaning};
ghost use Rattle.kernel_laws.specs.Answers.{Basis, VectorsOf, VectorInBounds, BasisInBounds};
ghost use Rattle.fraction_free.specs.RowAnswers.{rows_meant, GivesRows};
ghost use Rattle.fraction_free.specs.KernelAnswers.{Eliminates, IsByTheSteps, IsOnlyByTheSteps, AnswersBasis};

use crate::rounds::{is_pivot, pivot_rows};
use crate::vectors::free_vector;
use either::Either;
use reducing::Reducing;
use ring_laws::RingFault;
use std::alloc::Global;

/// A vector of the kernel, and the column at which it ends.
#[derive(Drop)]
pub struct Kernel<R> {
    /// The vector: each row times it is zero.
    pub vector: Vec<R>,
    /// The column of its last entry that isn't zero.
    pub free: u32,
}

/// The kernel has no vector that is wanted.
#[derive(Clone, Copy, Debug, PartialEq, Eq, Drop)]
pub struct Pivots {
    /// The rank: the number of columns at which no vector of the kernel ends.
    pub rank: u32,
}

/// A vector of the kernel of the rows that isn't zero at some column from `first` on, or the rank where there is none.
///
/// The kernel is over all entries, of any size, that belong to the ring. `Left` has the vector whose last entry that isn't zero stands
/// at the least column from `first` on at which any vector of the kernel has it.
///
/// `TooLarge` comes only where a step of the elimination up to that column or of the back substitution is out of bounds.
pub fn eliminate<R: Reducing>(
    alloc: Global,
    rows: Vec<Vec<R>>,
    columns: u32,
    first: u32,
) -> Result<Either<Kernel<R>, Pivots>, RingFault>
    requires some { (1 ≤ columns) × (columns ≤ 48) }
    requires within { first < columns }
    requires sizes { All (λ row. length row.items ≡ columns) rows.items }
    ensures kernel { Eliminates R.meaning R.algebra columns first (rows_meant R.meaning rows.items)
        (VectorInBounds R.division_in_bounds R.algebra R.reduction columns first (rows_meant R.meaning rows.items))
        result }

    // The vector is the one that the steps give.
    ensures steps { IsByTheSteps R.meaning R.algebra R.reduction columns (rows_meant R.meaning rows.items) result }
    ensures only { IsOnlyByTheSteps R.meaning R.algebra R.reduction columns (rows_meant R.meaning rows.items) result }
{
    let width = columns as usize;
    let found = pivot_rows(alloc, rows, width, first as usize)?;
    match found.free {
        Some(free) => {
            let vector = free_vector(alloc, &found.pivots, width, free)?;
            Ok(Either::Left(Kernel {
                vector,
                free: free as u32,
            }))
        }
        None => Ok(Either::Right(Pivots {
            rank: found.pivots.len() as u32,
        })),
    }
}

/// One vector of the kernel of the rows for each column at which one ends, by rising column: every vector of the kernel has a multiple
/// that isn't zero times it and is a sum of multiples of these. They are independent, and each is zero at the columns at which the
/// others end.
///
/// `TooLarge` comes only where a step of the elimination or of the back substitution is out of bounds.
pub fn kernel_basis<R: Reducing>(
    alloc: Global,
    rows: Vec<Vec<R>>,
    columns: u32,
) -> Result<Vec<Vec<R>>, RingFault>
    requires some { (1 ≤ columns) × (columns ≤ 48) }
    requires sizes { All (λ row. length row.items ≡ columns) rows.items }
    ensures basis { GivesRows R.meaning (Basis R.algebra columns (rows_meant R.meaning rows.items))
        (BasisInBounds R.division_in_bounds R.algebra R.reduction columns (rows_meant R.meaning rows.items))
        result }

    // The vectors are those that the steps give.
    ensures steps { AnswersBasis R.meaning (VectorsOf R.algebra R.reduction columns (rows_meant R.meaning rows.items)) result }
    ensures only { AnswersBasis R.meaning
        (λ vectors. (others : List (List Meaning)) → VectorsOf R.algebra R.reduction columns (rows_meant R.meaning rows.items) others → others ≡ vectors)
        result }
{
    let width = columns as usize;
    let found = pivot_rows(alloc, rows, width, width)?;
    let pivots = found.pivots;
    let mut vectors = Vec::new(alloc);
    for column in 0..width {
        if !is_pivot(&pivots, column) {
            let vector = free_vector(alloc, &pivots, width, column)?;
            vectors.push(vector)?;
        }
    }
    Ok(vectors)
}
