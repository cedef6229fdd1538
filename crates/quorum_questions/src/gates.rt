//! The search over the formula with its gates written out.
ghost use Rattle.std.specs.Prelude.{◌≡◌, ℕ, length, IfOk, IfSome};
ghost use Rattle.quorum_questions.specs.Evidence.{Shows};
ghost use Rattle.quorum_questions.specs.Searching.{IsAsked, IsFormulaFor, IsAnswerTo};

use crate::answers::Answer;
use crate::searching::{Asked, Formula};
use clause_encoder::VarMap;
use expanded_search::{Found, search};
use std::alloc::{AllocError, Global};
use witness_pair::make_pair;

/// What a search over the formula with its gates written out finds within the budget. None where that led nowhere.
pub fn by_gates(
    alloc: Global,
    asked: &Asked,
    formula: &Formula,
) -> Result<Option<Answer>, AllocError>
    requires asked { IsAsked asked.now }
    requires formula { IsFormulaFor asked.now formula.now }
    ensures { IfOk result (λ found. IfSome found (IsAnswerTo asked.now)) }
{
    match search(alloc, &formula.store, formula.size.vars, asked.budget)? {
        Some(Found::Refuted(log)) => Ok(Some(Answer::Yes(log, formula.size))),
        Some(Found::Spent(log)) => Ok(Some(Answer::Spent(log, formula.size))),
        Some(Found::Told(values)) => Ok(pair_told(asked, &formula.map, &values)),
        None => Ok(None),
    }
}

/// The two quorums that the values tell, where they are such and share no node. The search says only how many values there are.
fn pair_told(asked: &Asked, map: &VarMap, values: &[bool]) -> Option<Answer>
    requires asked { IsAsked asked.now }
    requires places { length map.now.greatest ≡ length asked.now.system.now.sets }
    requires values { length values.now ≡ map.now.count }
    ensures { IfSome result (IsAnswerTo asked.now) }
{
    let (first, second) = map.pair(values);
    match make_pair(asked.system, asked.faulty, first, second) {
        Ok(pair) => Some(Answer::No(pair)),
        Err(_) => None,
    }
}
