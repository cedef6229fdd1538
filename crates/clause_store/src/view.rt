//! Clauses that are borrowed, whatever their width: no literal is copied.
ghost use Rattle.std.specs.Prelude.{◌≡◌, ◌<◌, length, slice_index_or};

use lrat_model::Lit;
use std::marker::Model;

/// A clause that is read literal by literal. A loop over one is compiled for each kind of view: where the width is known,
/// for that width.
pub trait ClauseView {
    ghost use Rattle.std.specs.Prelude.{List};
    ghost use Rattle.lrat_model.specs.Literal.{Literal};

    ghost literals: { Self → List Literal };

    /// The number of its literals.
    fn len(&self) -> usize
        ensures { result ≡ length (literals self.now) };

    /// The literal at this place, from 0.
    fn at(&self, i: usize) -> Lit
        requires { i < length (literals self.now) }
        ensures { result ≡ slice_index_or (literals self.now) i result };
}

/// A clause of K literals.
#[derive(Drop)]
pub struct ClauseRef<'a, const K: usize> {
    lits: &'a [Lit],
}

impl<'a, const K: usize> Model for ClauseRef<'a, K> {
    ghost use Rattle.std.specs.Prelude.{◌≡◌, List, length};
    ghost use Rattle.lrat_model.specs.Literal.{Literal};

    ghost Value = { List Literal };

    ghost view = { λ clause. clause.lits.now };

    ghost invariant = { λ clause. length clause.lits.now ≡ K };
}

impl<'a, const K: usize> ClauseRef<'a, K> {
    /// Lends K literals.
    pub fn of(lits: &'a [Lit]) -> ClauseRef<'a, K>
        requires { length lits.now ≡ K }
        ensures { result ≡ lits.now }
    {
        ClauseRef { lits }
    }
}

impl<'a, const K: usize> ClauseView for ClauseRef<'a, K> {
    ghost literals = { λ clause. clause };

    fn len(&self) -> usize {
        let _ = &self.lits;
        K
    }

    fn at(&self, i: usize) -> Lit {
        let lits = self.lits;
        lits[i]
    }
}

/// A clause of any number of literals.
#[derive(Drop)]
pub struct LongRef<'a> {
    lits: &'a [Lit],
}

impl<'a> Model for LongRef<'a> {
    ghost use Rattle.std.specs.Prelude.{List};
    ghost use Rattle.lrat_model.specs.Literal.{Literal};

    ghost Value = { List Literal };

    ghost view = { λ clause. clause.lits.now };
}

impl<'a> LongRef<'a> {
    /// Lends literals.
    pub fn of(lits: &'a [Lit]) -> LongRef<'a>
        ensures { result ≡ lits.now }
    {
        LongRef { lits }
    }
}

impl<'a> ClauseView for LongRef<'a> {
    ghost literals = { λ clause. clause };

    fn len(&self) -> usize {
        self.lits.len()
    }

    fn at(&self, i: usize) -> Lit {
        let lits = self.lits;
        lits[i]
    }
}
