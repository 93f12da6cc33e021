// The conditions of the path and of the multipliers.
ghost use Rattle.clr_average.specs.Average.{IsWithin};
ghost use Rattle.clr_cert.specs.Conditions.{equal, path_condition};
ghost use Rattle.clr_cert.specs.declared.no.NoKind.TheVariants as kind;
ghost use Rattle.clr_cert.specs.Entries.{most_mult};
ghost use Rattle.clr_cert.specs.Places.{week_numbers};
ghost use Rattle.clr_num.specs.Sums.{sum_of};
ghost use Rattle.clr_rules.specs.LiveSummaries.{live_pairs};
ghost use Rattle.clr_rules.specs.Rules.{IsPath};
ghost use Rattle.clr_check.specs.Faults.{first_fault};
ghost use Rattle.std.specs.Prelude.{◌≡◌, ℕ, ◌≤◌, ◌<◌, pos, [], ◌∷◌, length, map, get_or};

use crate::faults::Fault;
use crate::week::lead;
use clr_cert::NoKind;
use clr_model::Path;
use clr_rules::Live;
use clr_season::Season;

/// The first week up to which the path can't be made one that obeys.
pub(crate) fn path_fault(season: &Season, live: &Live, path: &Path) -> Option<Fault>
    requires live { live.now ≡ live_pairs season.now.rules }
    requires path { IsPath season.now.rules path.now }
    ensures { result ≡ first_fault (map (path_condition season.now path.now) (week_numbers season.now)) }
{
    let mut s = season.rules().start();
    for done in 0..season.weeks() {
        let rung = path.rung(done + 1);
        match lead(season.rules(), live, done, s, rung) {
            Some((next, _)) => s = next,
            None => {
                return Some(Fault {
                    kind: NoKind::Path,
                    left: i128::from(done + 1),
                    right: i128::from(rung),
                });
            }
        }
    }
    None
}

/// The multipliers of all stores for a week and a rung don't sum to zero.
pub(crate) fn mult_fault(mults: &[i128]) -> Option<Fault>
    requires few { length mults.now ≤ 64 }
    requires small { (k : ℕ) → k < length mults.now → IsWithin most_mult (get_or mults.now k (pos 0)) }
    ensures { result ≡ first_fault (equal kind.Sum (sum_of (length mults.now) (λ i. get_or mults.now i (pos 0))) (pos 0) ∷ []) }
{
    let mut sum = 0;
    for mult in mults {
        sum += *mult;
    }
    total_fault(NoKind::Sum, sum, 0)
}

/// A number isn't what it must be.
pub(crate) fn total_fault(kind: NoKind, left: i128, right: i128) -> Option<Fault>
    ensures { result ≡ first_fault (equal kind left right ∷ []) }
{
    if left == right {
        None
    } else {
        Some(Fault { kind, left, right })
    }
}
