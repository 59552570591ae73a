//! Reduced echelon forms of rows of residues.
ghost use Rattle.std.specs.Prelude.{◌≡◌, ◌≢◌, ◌<◌, ℕ, pos, neg_ℤ, [], length, IfSome, IsNone};
ghost use Rattle.std.specs.List.{AllZip};
ghost use Rattle.std.specs.Vec.{vec_capacity};
ghost use Rattle.algebra.specs.Each.{Each};
ghost use Rattle.algebra.specs.In.{In};
ghost use Rattle.closures.specs.Modulo.{IsMultiple};
ghost use Rattle.residue_rows.specs.Modulus.{modulus};
ghost use Rattle.residue_rows.specs.EchelonForm.{entry, IsLed, IsReducedEchelon, IsWithRow, IsIndependent, IsDependent, IsRestOf, IsStuck};
ghost use Rattle.residue_rows.specs.Additions.{IsBlendOf, IsFirstEntry, IsClearedBy, IsAddedAs};
ghost use Rattle.residue_rows.specs.Numbers.{number_of, numbers_of};
ghost use Rattle.residue_rows.specs.LedRows.{led_of, leds_of};
ghost use Rattle.residue_rows.specs.declared.echelon.Addition.TheVariants.{Counts, Combination, NoInverse};

use crate::residue::Residue;
use std::alloc::{AllocError, Global};
use std::marker::Model;

/// What a row was.
#[derive(Clone, Copy, Debug, PartialEq, Eq)]
pub enum Addition {
    /// No combination of those before: the form has one row more.
    Counts,
    /// A combination of those before.
    Combination,
    /// What the rows leave of it begins with a residue that isn't 0 and has no inverse.
    NoInverse,
}

/// A row and the column where it leads: the entry there is 1, those before are 0.
#[derive(Drop)]
pub struct LedRow {
    lead: usize,
    entries: Vec<Residue>,
}

impl LedRow {
    /// The column where it leads.
    pub fn lead(&self) -> usize
        ensures { result ≡ self.now.lead }
    {
        self.lead
    }

    /// Its entries.
    pub fn entries(&self) -> &Vec<Residue>
        ensures { result.now ≡ self.now.entries }
    {
        &self.entries
    }
}

/// The reduced echelon form of rows of one width. It is seen as the width, and as the rows with their leading columns, in the order in which they came.
#[derive(Drop)]
pub struct Echelon {
    width: usize,
    rows: Vec<LedRow>,
}

impl Model for Echelon {
    ghost use Rattle.std.specs.Prelude.{pos};
    ghost use Rattle.residue_rows.specs.Modulus.{modulus};
    ghost use Rattle.residue_rows.specs.EchelonForm.{Form, IsReducedEchelon};
    ghost use Rattle.residue_rows.specs.LedRows.{leds_of};

    ghost Value = { Form };

    ghost view = { λ e. record { width = e.width; rows = leds_of e.rows.items } };

    ghost invariant = { λ e. IsReducedEchelon (pos modulus) e.width (leds_of e.rows.items) };
}

impl Echelon {
    /// No rows, of this width.
    pub fn new(alloc: Global, width: usize) -> Echelon
        ensures width { result.width ≡ width }
        ensures rows { result.rows ≡ [] }
    {
        Echelon {
            width,
            rows: Vec::new(alloc),
        }
    }

    /// Adds a row of residues. Where it counts, the rows are then the reduced echelon form of all rows that counted and of it; else they are as before.
    pub fn add_row(&mut self, row: Vec<Residue>) -> Result<Addition, AllocError>
        requires { length row.items ≡ self.old.width }
        ensures width { self.new.width ≡ self.old.width }
        ensures more { result ≡ Ok Counts
            → IsWithRow (pos modulus) self.old (numbers_of row.items) self.new }
        ensures new { result ≡ Ok Counts → IsIndependent (pos modulus) self.old
            (numbers_of row.items) }
        ensures old { result ≡ Ok Combination
            → IsDependent (pos modulus) self.old (numbers_of row.items) }
        ensures stuck { result ≡ Ok NoInverse
            → IsStuck (pos modulus) self.old (numbers_of row.items) }
        ensures kept { ¬ (result ≡ Ok Counts) → self.new ≡ self.old }
    {
        add_to(&mut self.rows, row)
    }

    /// How many columns there are.
    pub fn width(&self) -> usize
        ensures { result ≡ self.now.width }
    {
        self.width
    }

    /// The rows.
    pub fn rows(&self) -> &Vec<LedRow>
        ensures { leds_of result.now.items ≡ self.now.rows }
    {
        &self.rows
    }

    /// The row that leads in this column.
    pub fn row_at(&self, column: usize) -> Option<&LedRow>
        ensures kept { IsReducedEchelon (pos modulus) self.now.width self.now.rows }
        ensures some { IfSome result (λ r. r.now.lead ≡ column) }
        ensures within { IfSome result (λ r. In (led_of r.now) self.now.rows) }
        ensures none { IsNone result → Each (λ l. l.lead ≢ column) self.now.rows }
    {
        row_in(self.rows.as_slice(), column)
    }
}

/// The first of the rows that leads in this column.
fn row_in(rows: &[LedRow], column: usize) -> Option<&LedRow>
    ensures some { IfSome result (λ r. r.now.lead ≡ column) }
    ensures within { IfSome result (λ r. In (led_of r.now) (leds_of rows.now)) }
    ensures none { IsNone result → Each (λ l. l.lead ≢ column) (leds_of rows.now) }
{
    for row in rows {
        if row.lead == column {
            return Some(row);
        }
    }
    None
}

/// Adds a row to the rows of a form, which are n wide.
fn add_to(rows: &mut Vec<LedRow>, mut row: Vec<Residue>) -> Result<Addition, AllocError>
    requires { IsReducedEchelon (pos modulus) (length row.items) (leds_of rows.old.items) }
    ensures counts { result ≡ Ok Counts → IsAddedAs (pos modulus)
        (record { width = length row.items; rows = leds_of rows.old.items })
        (numbers_of row.items) (leds_of rows.new.items) }
    ensures old { result ≡ Ok Combination → IsDependent (pos modulus)
        (record { width = length row.items; rows = leds_of rows.old.items })
        (numbers_of row.items) }
    ensures stuck { result ≡ Ok NoInverse → IsStuck (pos modulus)
        (record { width = length row.items; rows = leds_of rows.old.items })
        (numbers_of row.items) }
    ensures kept { ¬ (result ≡ Ok Counts) → rows.new.items ≡ rows.old.items }
{
    reduce(&mut row, rows.as_slice());
    let Some(lead) = first_nonzero(row.as_slice()) else {
        return Ok(Addition::Combination);
    };
    let Some(inverse) = row[lead].inverse() else {
        return Ok(Addition::NoInverse);
    };
    scale(&mut row, &inverse);
    rows.reserve(1)?;
    let fresh = LedRow { lead, entries: row };
    clear_column(rows, &fresh);
    rows.push(fresh).unwrap();
    Ok(Addition::Counts)
}

/// Takes from the row, for each of the rows, its entry in their leading column times them.
fn reduce(row: &mut Vec<Residue>, rows: &[LedRow])
    requires { IsReducedEchelon (pos modulus) (length row.old.items) (leds_of rows.now) }
    ensures { IsRestOf (pos modulus)
        (record { width = length row.old.items; rows = leds_of rows.now })
        (numbers_of row.old.items) (numbers_of row.new.items) }
{
    for other in rows {
        let factor = row[other.lead];
        take_away(row, &factor, other);
    }
}

/// Takes from the row the factor times another.
fn take_away(row: &mut Vec<Residue>, factor: &Residue, other: &LedRow)
    requires width { length other.now.entries.items ≡ length row.old.items }
    requires before { (k : ℕ) → k < other.now.lead
        → IsMultiple (pos modulus) (entry (numbers_of other.now.entries.items) k) }
    ensures width { length row.new.items ≡ length row.old.items }
    ensures row { IsBlendOf (pos modulus) (pos 1) (numbers_of row.old.items)
        (neg_ℤ (number_of factor.now)) (numbers_of other.now.entries.items)
        (numbers_of row.new.items) }
{
    if factor.is_zero() {
        return;
    }
    for column in other.lead..row.len() {
        row[column] = row[column].sub(&factor.mul(&other.entries[column]));
    }
}

/// The column of the first entry that isn't 0.
fn first_nonzero(row: &[Residue]) -> Option<usize>
    ensures some { IfSome result (IsFirstEntry (numbers_of row.now)) }
    ensures none { IsNone result → (k : ℕ) → entry (numbers_of row.now) k ≡ pos 0 }
{
    for column in 0..row.len() {
        if !row[column].is_zero() {
            return Some(column);
        }
    }
    None
}

/// The row times a residue.
fn scale(row: &mut Vec<Residue>, by: &Residue)
    ensures width { length row.new.items ≡ length row.old.items }
    ensures row { IsBlendOf (pos modulus) (number_of by.now) (numbers_of row.old.items) (pos 0) []
        (numbers_of row.new.items) }
{
    for column in 0..row.len() {
        row[column] = row[column].mul(by);
    }
}

/// Takes from each of the rows its entry in the leading column of the fresh one times that.
fn clear_column(rows: &mut Vec<LedRow>, fresh: &LedRow)
    requires led { IsLed (pos modulus) (length fresh.now.entries.items) (led_of fresh.now) }
    requires widths { Each (λ r. length r.entries.items ≡ length fresh.now.entries.items)
        rows.old.items }
    ensures rows { AllZip (IsClearedBy (pos modulus) (led_of fresh.now)) (leds_of rows.old.items)
        (leds_of rows.new.items) }
    ensures length { length rows.new.items ≡ length rows.old.items }
    ensures capacity { vec_capacity rows.new ≡ vec_capacity rows.old }
{
    for place in 0..rows.len() {
        clear(&mut rows[place], fresh);
    }
}

/// Takes from the row its entry in the leading column of the fresh one times that.
fn clear(row: &mut LedRow, fresh: &LedRow)
    requires led { IsLed (pos modulus) (length row.old.entries.items) (led_of fresh.now) }
    ensures { IsClearedBy (pos modulus) (led_of fresh.now) (led_of row.old) (led_of row.new) }
{
    let factor = row.entries[fresh.lead];
    take_away(&mut row.entries, &factor, fresh);
}
