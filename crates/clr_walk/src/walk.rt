// The walk over the tight prefixes.
ghost use Rattle.std.specs.Prelude.{◌≡◌, ℕ, ◌+◌, ◌-◌, ◌≤◌, ◌<◌, ℤ, List, [], ◌∷◌, ◌++◌, length, take, IsTrue, true, false, IfOk, MatchOption};
ghost use Rattle.clr_walk.specs.Prefixes.{IsChosen, IsPath, Terms};
ghost use Rattle.clr_walk.specs.Tight.{IsSearched, reaches};
ghost use Rattle.clr_walk.specs.Walks.{IsBetter, IsChoice, IsNoBetter, IsOpened, Leaves, Takes, under};

use crate::order::comes_before;
use std::alloc::{AllocError, Global};

/// What a search is over: paths of so many weeks, the rungs of a ladder, a bound for each list of rungs that some path begins
/// with, and a value for each path.
///
/// A live list of rungs is one that some path begins with. The walk carries a `State` along its path, so that a list
/// need not be read again from its first week, and lends buffers to work in.
pub trait Problem {
    /// What the problem keeps of a live list of rungs.
    type State: Copy + Drop;

    /// Buffers.
    type Work;

    ghost terms: { Self → Terms };

    ghost stands: { Self → Self.State → List ℕ → Type 0 };

    /// The number of weeks.
    fn weeks(&self) -> u32
        ensures { result ≡ (terms self.now).weeks };

    /// The number of rungs.
    fn rungs(&self) -> u32
        ensures { result ≡ (terms self.now).rungs };

    /// The state of a live list with one rung more; None where that list is not live.
    fn next(&self, prefix: &[u32], state: Self::State, rung: u32) -> Option<Self::State>
        requires state { stands self.now state prefix.now }
        requires early { length prefix.now < (terms self.now).weeks }
        requires low { 1 ≤ rung }
        requires high { rung ≤ (terms self.now).rungs }
        ensures { MatchOption result ((terms self.now).live (prefix.now ++ rung ∷ []) ≡ false)
            (λ next. IsTrue ((terms self.now).live (prefix.now ++ rung ∷ [])) × stands self.now next (prefix.now ++ rung ∷ [])) };

    /// Whether the bound of a live list is at least the seed.
    fn reaches(&self, work: &mut Self::Work, prefix: &[u32], state: Self::State, seed: i128) -> bool
        requires state { stands self.now state prefix.now }
        requires live { IsTrue ((terms self.now).live prefix.now) }
        ensures { result ≡ reaches (terms self.now) seed prefix.now };

    /// The value of a path.
    fn low(&self, work: &mut Self::Work, path: &[u32]) -> i128
        requires { IsPath (terms self.now) path.now }
        ensures { result ≡ (terms self.now).low path.now };

    ghost closed: { (x : Self) (prefix rest : List ℕ) → IsTrue ((terms x).live (prefix ++ rest)) → IsTrue ((terms x).live prefix) };
}

/// A walk over tight prefixes: the rungs so far and what lies behind them, how many prefixes may still be taken,
/// whether there are more, and the best path with its value.
#[derive(Drop)]
pub(crate) struct Walk {
    path: Vec<u32>,
    left: u64,
    more: bool,
    best: Vec<u32>,
    low: i128,
}

/// Whether a path with this value is better than the best so far with its value: its value is greater, or as great and it comes
/// before.
pub fn is_better(low: i128, value: i128, path: &[u32], best: &[u32]) -> bool
    requires { length path.now ≡ length best.now }
    ensures better { result ≡ true → IsBetter low value path.now best.now }
    ensures worse { result ≡ false → IsNoBetter low value path.now best.now }
{
    if low == value {
        comes_before(path, best)
    } else {
        low > value
    }
}

/// Offers the whole path as a candidate.
fn offer(walk: &mut Walk, low: i128)
    requires { length walk.old.path.items ≡ length walk.old.best.items }
    ensures path { walk.new.path.items ≡ walk.old.path.items }
    ensures left { walk.new.left ≡ walk.old.left }
    ensures more { walk.new.more ≡ walk.old.more }
    ensures choice { IsChoice low walk.old.low walk.old.path.items walk.old.best.items walk.new.low walk.new.best.items }
{
    if is_better(low, walk.low, &walk.path, &walk.best) {
        walk.best.copy_from_slice(&walk.path);
        walk.low = low;
    }
}

/// Takes a live prefix, of so many weeks.
fn visit<P: Problem>(problem: &P, work: &mut P::Work, walk: &mut Walk, done: usize)
    requires best { length walk.old.path.items ≡ length walk.old.best.items }
    requires weeks { length walk.old.path.items ≡ (P.terms problem.now).weeks }
    requires done { done ≤ length walk.old.path.items }
    requires live { IsTrue ((P.terms problem.now).live (take done walk.old.path.items)) }
    ensures path { walk.new.path.items ≡ walk.old.path.items }
    ensures best { length walk.new.best.items ≡ length walk.old.best.items }
    ensures walked { Takes (P.terms problem.now) (take done walk.old.path.items ∷ []) walk.old walk.new }
{
    if walk.left == 0 {
        walk.more = true;
        return;
    }
    walk.left -= 1;
    if done == walk.path.len() {
        let low = problem.low(work, &walk.path);
        offer(walk, low);
    }
}

/// Puts a rung at a week and takes the prefix. Gives its state where the walk is to go on behind it.
fn enter<P: Problem>(
    problem: &P,
    work: &mut P::Work,
    seed: i128,
    walk: &mut Walk,
    done: usize,
    state: P::State,
    rung: u32,
) -> Option<P::State>
    requires best { length walk.old.path.items ≡ length walk.old.best.items }
    requires weeks { length walk.old.path.items ≡ (P.terms problem.now).weeks }
    requires done { done < length walk.old.path.items }
    requires state { P.stands problem.now state (take done walk.old.path.items) }
    requires low { 1 ≤ rung }
    requires high { rung ≤ (P.terms problem.now).rungs }
    ensures before { take done walk.new.path.items ≡ take done walk.old.path.items }
    ensures path { length walk.new.path.items ≡ length walk.old.path.items }
    ensures best { length walk.new.best.items ≡ length walk.old.best.items }
    ensures taken { MatchOption result
        (Leaves (P.terms problem.now) seed (take done walk.old.path.items ++ rung ∷ []) (length walk.old.path.items - (done + 1)) walk.old walk.new)
        (λ next. IsOpened (P.terms problem.now) seed (take done walk.old.path.items ++ rung ∷ []) done walk.new.path.items
        × P.stands problem.now next (take done walk.old.path.items ++ rung ∷ [])
        × Takes (P.terms problem.now) ((take done walk.old.path.items ++ rung ∷ []) ∷ []) walk.old walk.new) }
{
    if walk.more {
        walk.path[done] = rung;
        return None;
    }
    let next = problem.next(&walk.path[..done], state, rung)?;
    walk.path[done] = rung;
    let after = done + 1;
    visit(problem, work, walk, after);
    if after < walk.path.len() && problem.reaches(work, &walk.path[..after], next, seed) {
        Some(next)
    } else {
        None
    }
}

/// Goes over the tight prefixes behind a prefix of the path.
fn explore<P: Problem>(
    problem: &P,
    work: &mut P::Work,
    seed: i128,
    walk: &mut Walk,
    done: usize,
    state: P::State,
)
    requires best { length walk.old.path.items ≡ length walk.old.best.items }
    requires weeks { length walk.old.path.items ≡ (P.terms problem.now).weeks }
    requires done { done < length walk.old.path.items }
    requires state { P.stands problem.now state (take done walk.old.path.items) }
    ensures before { take done walk.new.path.items ≡ take done walk.old.path.items }
    ensures path { length walk.new.path.items ≡ length walk.old.path.items }
    ensures best { length walk.new.best.items ≡ length walk.old.best.items }
    ensures walked { Takes (P.terms problem.now) (under (P.terms problem.now) seed (take done walk.old.path.items) (length walk.old.path.items - done)) walk.old walk.new }
{
    for below in 0..problem.rungs() {
        if let Some(next) = enter(problem, work, seed, walk, done, state, below + 1) {
            explore(problem, work, seed, walk, done + 1, next);
        }
    }
}

/// A path, its value, and whether all tight prefixes were taken.
#[derive(Drop)]
pub struct Searched {
    /// The rungs of the weeks.
    pub path: Vec<u32>,
    /// The path's value.
    pub low: i128,
    /// Whether there are no more tight prefixes than were to be taken.
    pub best: bool,
}

/// Searches the tight prefixes: the live nonempty lists of rungs of which each proper nonempty prefix has a bound of at least
/// the value of `first`, in the order of lists, each before its extensions. It takes `nodes` of them at most. `first` is the best
/// of any paths to begin with, and `state` that of the empty list. The answer is the best of `first` and of the whole paths
/// among those taken, the first in the order of lists where some are equal, and whether no tight prefix is left.
///
/// # Errors
/// Where memory is wanting.
pub fn search<P: Problem>(
    alloc: Global,
    problem: &P,
    work: &mut P::Work,
    state: P::State,
    first: Vec<u32>,
    nodes: u64,
) -> Result<Searched, AllocError>
    requires weeks { 1 ≤ (P.terms problem.now).weeks }
    requires state { P.stands problem.now state [] }
    requires path { IsPath (P.terms problem.now) first.items }
    ensures { IfOk result (λ found. (seeds : List (List ℕ)) → IsChosen (P.terms problem.now) seeds first.items →
        IsSearched (P.terms problem.now) ((P.terms problem.now).low first.items) seeds nodes found.path.items found.low found.best) }
{
    let path = Vec::from_slice(alloc, &first)?;
    let seed = problem.low(work, &first);
    let mut walk = Walk {
        path,
        left: nodes,
        more: false,
        best: first,
        low: seed,
    };
    explore(problem, work, seed, &mut walk, 0, state);
    Ok(Searched {
        path: walk.best,
        low: walk.low,
        best: !walk.more,
    })
}
