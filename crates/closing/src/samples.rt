//! Samples: runs from random starts by random words, computed modulo 2^127 - 1.
ghost use Rattle.std.specs.Prelude.{◌≡◌, ℕ, List, [], length, map, pos, IfOk};
ghost use Rattle.std.specs.List.{All};
ghost use Rattle.rounds.specs.Word.{IsLetter};
ghost use Rattle.loop_model.specs.View.{program_of};
ghost use Rattle.residue_rows.specs.Modulus.{modulus};
ghost use Rattle.residue_rows.specs.Numbers.{numbers_of};
ghost use Rattle.closing.specs.Maps.{AreMapsModulo};
ghost use Rattle.closing.specs.Samples.{IsSampleState, IsRowOf, letters};

use crate::evaluations::map_at;
use crate::modular_maps::ResidueMaps;
use loop_model::Loop;
use monos::Mono;
use residue_rows::monomial_values::monomials_at;
use residue_rows::residue::Residue;
use std::alloc::{AllocError, Global};

/// The start with these numbers at its free variables, modulo 2^127 - 1: one for each variable;
/// those of the others aren't looked at.
pub fn start_state(
    alloc: Global,
    lp: &Loop,
    maps: &ResidueMaps,
    numbers: &[u64],
) -> Result<Vec<Residue>, AllocError>
    requires maps { AreMapsModulo (program_of lp.now) maps.now }
    requires count { length numbers.now ≡ length (program_of lp.now).names }
    ensures { IfOk result (λ state. IsSampleState (program_of lp.now) (pos modulus) numbers.now []
        (numbers_of state.items)) }
{
    let state = residues_of(alloc, numbers)?;
    map_at(alloc, &maps.start, &state)
}

/// The numbers as residues.
fn residues_of(alloc: Global, numbers: &[u64]) -> Result<Vec<Residue>, AllocError>
    ensures { IfOk result (λ state. numbers_of state.items ≡ map pos numbers.now) }
{
    let mut residues = Vec::new(alloc);
    for number in numbers {
        residues.push(Residue::from_number(*number))?;
    }
    Ok(residues)
}

/// The word whose letters are 1 more than the rests of the numbers by the number of branches.
pub fn word_of(alloc: Global, lp: &Loop, numbers: &[u64]) -> Result<Vec<u32>, AllocError>
    ensures word { IfOk result (λ word.
        word.items ≡ letters (length (program_of lp.now).branches) numbers.now) }
    ensures letters { IfOk result (λ word. All (IsLetter (program_of lp.now)) word.items) }
{
    let mut word = Vec::new(alloc);
    let branches = lp.branches().len() as u64;
    for number in numbers {
        word.push((*number % branches) as u32 + 1)?;
    }
    Ok(word)
}

/// The values of the monomials, modulo 2^127 - 1, at the end of the run with this start and this
/// word.
pub fn sample_row(
    alloc: Global,
    lp: &Loop,
    maps: &ResidueMaps,
    monomials: &[Mono],
    start: Vec<Residue>,
    word: &[u32],
) -> Result<Vec<Residue>, AllocError>
    requires maps { AreMapsModulo (program_of lp.now) maps.now }
    requires word { All (IsLetter (program_of lp.now)) word.now }
    ensures row { (ns : List ℕ)
        → IsSampleState (program_of lp.now) (pos modulus) ns [] (numbers_of start.items)
        → IfOk result (λ row. IsRowOf (program_of lp.now) (pos modulus) monomials.now ns word.now
        (numbers_of row.items)) }
    ensures width { IfOk result (λ row. length row.items ≡ length monomials.now) }
{
    let end = end_state(alloc, lp, maps, start, word)?;
    monomials_at(alloc, monomials, &end)
}

/// The end of the run with this start and this word, modulo 2^127 - 1.
fn end_state(
    alloc: Global,
    lp: &Loop,
    maps: &ResidueMaps,
    start: Vec<Residue>,
    word: &[u32],
) -> Result<Vec<Residue>, AllocError>
    requires maps { AreMapsModulo (program_of lp.now) maps.now }
    requires word { All (IsLetter (program_of lp.now)) word.now }
    ensures { (ns : List ℕ)
        → IsSampleState (program_of lp.now) (pos modulus) ns [] (numbers_of start.items)
        → IfOk result (λ state. IsSampleState (program_of lp.now) (pos modulus) ns word.now
        (numbers_of state.items)) }
{
    let mut state = start;
    for letter in word {
        state = map_at(alloc, &maps.branches[*letter as usize - 1], &state)?;
    }
    Ok(state)
}
