// What a certificate claims.
use clr_model::Path;

/// What an accepted certificate claims. Its numbers are in units, of which a cent has 10^6.
#[derive(Drop)]
pub struct Claims {
    /// A path that obeys.
    pub path: Path,
    /// The path earns no less in expectation.
    pub low: i128,
    /// The path earns no more in expectation.
    pub high: i128,
    /// No policy that abides earns more in expectation.
    pub bound: i128,
    /// Where the season fits: what the policy of the certificate's own rungs earns at least, and what no policy that abides
    /// passes.
    pub exact: Option<(i128, i128)>,
}
