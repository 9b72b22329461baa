//! The abstraction by predicate automata. Classes are split automaton by automaton, each in time linear in its pairs of states and of
//! edges with the same letter; many automata are shared out to threads.

ghost use Rattle.std.specs.Prelude.{◌≡◌, ◌≤◌, [], ◌∷◌, IfOk};
ghost use Rattle.predicate_abstraction.specs.Predicates.{predicates, key_of, refined_with, is_related, next_key};
ghost use Rattle.predicate_abstraction.specs.PredicateLaws.{related-equivalence, related-finer, next_key-over};
ghost use Rattle.predicate_abstraction.specs.PredicateLaws.{refined_key, first-stays, refuted-added, related-excludes};

use crate::predicate::Predicate;
use crate::shares::{classes_in_threads, split_by_last};
use abstraction::{Abstraction, Excluding, Refinable};
use minimise::Canon;
use std::alloc::{AllocError, Global};
use std::marker::Model;
use std::thread::Threads;

/// An abstraction by predicate automata: states are related where each state of each predicate automaton shares a word with both
/// or with neither.
#[derive(Drop)]
pub struct Predicates<'a, R: Threads + Sync> {
    runtime: &'a R,
    workers: u32,
    automata: Vec<Predicate>,
    started: usize,
}

impl<'a, R: Threads + Sync> Model for Predicates<'a, R> {
    ghost use Rattle.std.specs.Prelude.{◌≤◌, length, take, drop};
    ghost use Rattle.predicate_abstraction.specs.Predicates.{RefinedKey, predicates};

    ghost Value = { RefinedKey };

    ghost view = { λ p. record { first = predicates (take p.started p.automata.items); refuted = drop p.started p.automata.items } };

    ghost invariant = { λ p. p.started ≤ length p.automata.items };
}

impl<'a, R: Threads + Sync> Predicates<'a, R> {
    /// The abstraction without predicate automata, which relates all states. Classes are made in at most `workers` threads, from 1 to
    /// 16. It takes no memory.
    pub fn none(alloc: Global, runtime: &'a R, workers: u32) -> Predicates<'a, R>
        requires { (1 ≤ workers) × (workers ≤ 16) }
        ensures { result ≡ record { first = predicates []; refuted = [] } }
    {
        Predicates {
            runtime,
            workers,
            automata: Vec::new(alloc),
            started: 0,
        }
    }

    /// The abstraction by the automaton of the bad words alone. Classes are made in at most `workers` threads, from 1 to 16.
    pub fn of(
        alloc: Global,
        runtime: &'a R,
        bad: &Canon,
        workers: u32,
    ) -> Result<Predicates<'a, R>, AllocError>
        requires { (1 ≤ workers) × (workers ≤ 16) }
        ensures { IfOk result (λ made. made ≡ record { first = predicates (bad.now ∷ []); refuted = [] }) }
    {
        let mut automata = Vec::new(alloc);
        automata.push(Predicate::new(alloc, bad)?)?;
        Ok(Predicates {
            runtime,
            workers,
            automata,
            started: 1,
        })
    }
}

impl<'a, R: Threads + Sync> Abstraction for Predicates<'a, R> {
    ghost key = { key_of };

    ghost related = { is_related };

    fn classes(&self, alloc: Global, a: &Canon) -> Result<Vec<usize>, AllocError> {
        classes_in_threads(alloc, self.runtime, self.workers, a, &self.automata)
    }

    ghost equivalence = { related-equivalence };
}

impl<'a, R: Threads + Sync> Refinable for Predicates<'a, R> {
    ghost next = { next_key };

    ghost after = { refined_with };

    fn refine(&mut self, alloc: Global, refuted: &Canon) -> Result<(), AllocError> {
        let predicate = Predicate::new(alloc, refuted)?;
        self.automata.push(predicate)?;
        Ok(())
    }

    /// It splits the classes by the last predicate automaton alone.
    fn classes_after(
        &self,
        alloc: Global,
        a: &Canon,
        before: &[usize],
    ) -> Result<Vec<usize>, AllocError> {
        split_by_last(alloc, &self.automata, a, before)
    }

    ghost finer = { related-finer };

    ghost stays_over = { next_key-over };
}

impl<'a, R: Threads + Sync> Excluding for Predicates<'a, R> {
    ghost first = { λ k. k.first };

    ghost refuted = { λ k. k.refuted };

    fn refuted_count(&self) -> usize {
        self.automata.len() - self.started
    }

    ghost refined = { refined_key };

    ghost first_stays = { first-stays };

    ghost adds = { refuted-added };

    ghost excludes = { related-excludes };
}
