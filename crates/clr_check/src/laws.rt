// What an accepted certificate proves. Each law is the contract of a function that does nothing.
ghost use Rattle.clr_check.specs.Laws.{AcceptedClaimsHold, AcceptedOrRefused};

/// The path of an accepted certificate keeps all rules, and what it earns in expectation lies between the two numbers of
/// its revenue. No policy that abides earns more than its bound. Where the season fits, the policy of its own rungs abides,
/// what it earns lies between the two numbers of all stores together, and no policy that abides earns more than the upper.
pub fn accepted_claims_hold()
    ensures { AcceptedClaimsHold }
{}

/// A certificate has a first fault exactly where it isn't accepted.
pub fn accepted_or_refused()
    ensures { AcceptedOrRefused }
{}
