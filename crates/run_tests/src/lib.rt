//! `run` over a desk in memory: what only such a desk shows. The printed texts and statuses of worked cases are rows of
//! `tests/answers.py`, over the built program.
#![tactic(auto)]

#[cfg(test)]
mod certificates;
#[cfg(test)]
mod desks;
#[cfg(test)]
mod failing;
#[cfg(test)]
mod pieces;
#[cfg(test)]
mod systems;
#[cfg(test)]
mod words;
