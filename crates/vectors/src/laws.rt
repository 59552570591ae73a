//! The laws of echelon lists, of combinations and of splitting over the fractions, one function each.

ghost use Rattle.std.specs.Prelude.{◌≡◌, ◌<◌, ◌≤◌, ◌⊎◌, ℕ, ℤ, List, length};
ghost use Rattle.algebra.specs.Fraction.{Fraction};
ghost use Rattle.algebra.proofs.Fractions.{ℚ_ring, ℚ_field};
ghost use Rattle.algebra.specs.Each.{Each};
ghost use Rattle.algebra.specs.In.{In};
ghost use Rattle.vectors.specs.Space.{IsCombination, Independent};
ghost use Rattle.vectors.specs.Sequences.{sequences};
ghost use Rattle.vectors.specs.Rows.{Row, rows_of};
ghost use Rattle.vectors.specs.Echelon.{IsEchelon, Pivots, rows_in, IsReduced, AreFree, AreKernelVectors};
ghost use Rattle.vectors.specs.Kernel.{IsKernelBasis};
ghost use Rattle.vectors.specs.Matrices.{AreForms, AreSearched, SplitsAt};
ghost use Rattle.vectors.specs.WholeMatrices.{IsEigenvalue, IsWholeWithin, greatest_column_sum};

/// Reduced echelon lists with the same combinations are one.
pub fn echelon_lists_are_one()
    ensures { (us vs : List (ℕ → Fraction)) → IsEchelon ℚ_field us → IsEchelon ℚ_field vs
        → ((v : ℕ → Fraction) → IsCombination (sequences ℚ_ring ℕ) us v
        → IsCombination (sequences ℚ_ring ℕ) vs v)
        → ((v : ℕ → Fraction) → IsCombination (sequences ℚ_ring ℕ) vs v
        → IsCombination (sequences ℚ_ring ℕ) us v)
        → us ≡ vs }
{}

/// Independent vectors are no more than those that they are made of.
pub fn independent_vectors_are_few()
    ensures { (n : ℕ) (us vs : List (Row ℚ_field n))
        → Each (IsCombination (rows_of ℚ_field n) us) vs → Independent (rows_of ℚ_field n) vs
        → length vs ≤ length us }
{}

/// Where a search has gone through all candidates there are as many forms as rows and a list of values that splits the matrix, or there is no such list.
pub fn counting_forms_decides_splitting()
    ensures { (n : ℕ) (rows forms : List (List Fraction)) (values : List Fraction) → length rows ≡ n
        → AreSearched n rows forms values
        → ((length forms ≡ n) × SplitsAt n rows) ⊎ (SplitsAt n rows → ⊥) }
{}

/// The values of every splitting are among those that the whole search has found.
pub fn splittings_have_the_same_values()
    ensures { (n : ℕ) (rows forms others : List (List Fraction))
        (values other_values : List Fraction)
        → length rows ≡ n → AreSearched n rows forms values → length forms ≡ n
        → AreForms n rows others other_values → (c : Fraction) → In c other_values → In c values }
{}

/// A fraction that is an eigenvalue of a matrix of whole numbers is a whole number, in absolute value at most the greatest column sum.
pub fn whole_matrices_have_whole_eigenvalues()
    ensures { (rows : List (ℕ → ℤ)) (c : Fraction) → IsEigenvalue rows c
        → IsWholeWithin (greatest_column_sum rows) c }
{}

/// The vectors of the columns of a reduced echelon list in which no row leads are independent, and their combinations are exactly the kernel.
pub fn kernel_vectors_are_a_basis()
    ensures { (n : ℕ) (ps : Pivots ℚ_field) (js : List ℕ) (xs : List (ℕ → Fraction))
        → IsReduced ℚ_field ps → Each (λ p. p.0 < n) ps → AreFree ℚ_field n ps js
        → AreKernelVectors ℚ_field n ps js xs
        → IsKernelBasis ℚ_field n (rows_in ℚ_field ps) xs }
{}
