//! The names of variables.

ghost use Rattle.std.specs.Prelude.{◌≡◌, ◌<◌, ◌≤◌, ◌++◌, ◌↔◌, List, [], ◌∷◌, ℕ, length, vec_len, map, string_bytes, slice_get, Some, None, IsTrue, IfSome, IfOk, IfErr, OnOk, OnErr};
ghost use Rattle.loops.specs.Limits.{most_bytes};
ghost use Rattle.loop_model.specs.Words.{is_plain_word};
ghost use Rattle.monos.specs.Variables.{most_variables};
ghost use Rattle.loop_model.specs.Names.{AreNames, place_of, is_name, names_fault, fault_behind};
ghost use Rattle.loop_model.specs.SeenNames.{error_fault, seen_fault};

use crate::NamesError;
use crate::words::is_plain;
use indexmap::IndexSet;
use std::alloc::{AllocError, Global};
use std::marker::Model;
use std::str;

/// The most bytes of a name.
pub const MOST_BYTES: usize = 32;

/// At most 4,096 names of variables, in declared order. Each is a letter, then letters, digits and `_`, at most 32 bytes and no keyword,
/// and each is another. They are seen as the list of their bytes.
#[derive(Drop)]
pub struct Names {
    set: IndexSet<String>,
}

impl Model for Names {
    ghost Value = { List (List ℕ) };

    ghost view = { λ names. map string_bytes names.set.keys };

    ghost invariant = { λ names. AreNames (map string_bytes names.set.keys) };
}

/// Whether these bytes can be the name of a variable.
#[tactic(auto, unfolding(loops::specs::Limits::most_bytes))]
fn is_name(name: &[u8]) -> bool
    ensures { result ≡ is_name name.now }
{
    is_plain(name) && name.len() <= MOST_BYTES
}

impl Names {
    /// No names.
    pub fn empty(alloc: Global) -> Names
        ensures { result ≡ [] }
    {
        Names {
            set: IndexSet::new(alloc),
        }
    }

    /// These names. `Bad` or `Twice` exactly for the first that can't be a name (a letter, then letters, digits and `_`, at most 32 bytes,
    /// no keyword), or that stands before.
    pub fn new(alloc: Global, list: &Vec<String>) -> Result<Names, NamesError>
        requires { vec_len list.now ≤ most_variables }
        ensures names { IfOk result (λ names. names ≡ map string_bytes list.now.items) }
        ensures fault { IfSome (seen_fault result)
            (λ fault. fault ≡ names_fault (map string_bytes list.now.items)) }
    {
        let mut names = Names::empty(alloc);
        for name in list {
            names.push(name.as_bytes())?;
        }
        Ok(names)
    }

    /// One name more, at the end; its index is the number of names. `Bad` or `Twice` exactly where it can't be a name, or stands before.
    pub fn push(&mut self, name: &[u8]) -> Result<(), NamesError>
        requires { length self.old < most_variables }
        ensures ok { OnOk result (self.new ≡ self.old ++ name.now ∷ []) }
        ensures err { OnErr result (self.new ≡ self.old) }
        ensures free { OnOk result ((rest : List (List ℕ)) →
            fault_behind self.old (name.now ∷ rest)
            ≡ fault_behind (self.old ++ name.now ∷ []) rest) }
        ensures fault { IfErr result (λ e. (rest : List (List ℕ)) →
            IfSome (error_fault e) (λ fault. fault ≡ fault_behind self.old (name.now ∷ rest))) }
    {
        let index = self.len();
        if !is_name(name) {
            return Err(NamesError::Bad { index });
        }
        if self.position(name).is_some() {
            return Err(NamesError::Twice { index });
        }
        self.push_new(name)?;
        Ok(())
    }

    /// One name more, at the end, which can be one and differs from the others.
    pub fn push_new(&mut self, name: &[u8]) -> Result<(), AllocError>
        requires plain { IsTrue (is_plain_word name.now) }
        requires short { length name.now ≤ most_bytes }
        requires other { place_of self.old name.now ≡ None }
        requires room { length self.old < most_variables }
        ensures ok { OnOk result (self.new ≡ self.old ++ name.now ∷ []) }
        ensures err { OnErr result (self.new ≡ self.old) }
    {
        let text = str::from_utf8(name).unwrap();
        let name = String::from_str(*self.set.allocator(), text)?;
        self.set.insert(name)?;
        Ok(())
    }

    /// The number of names.
    pub fn len(&self) -> usize
        ensures len { result ≡ length self.now }
        ensures few { result ≤ most_variables }
        ensures names { AreNames self.now }
    {
        self.set.len()
    }

    /// Whether there are none.
    pub fn is_empty(&self) -> bool
        ensures { IsTrue result ↔ (self.now ≡ []) }
    {
        self.set.is_empty()
    }

    /// The position of the name with these bytes; None exactly where no name is equal to them.
    pub fn position(&self, name: &[u8]) -> Option<usize>
        ensures place { result ≡ place_of self.now name.now }
        ensures within { IfSome result (λ i. i < length self.now) }
    {
        match str::from_utf8(name) {
            Ok(text) => self.set.get_index_of(text),
            Err(_) => None,
        }
    }

    /// The name at this position.
    pub fn name(&self, index: usize) -> &String
        requires { index < length self.now }
        ensures { slice_get self.now index ≡ Some (string_bytes result.now) }
    {
        &self.set[index]
    }
}
