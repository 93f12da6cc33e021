// The order of paths.
ghost use Rattle.std.specs.Prelude.{◌≡◌, ◌⊎◌, true, false, length};
ghost use Rattle.clr_rules.specs.FirstPath.{ComesBefore};

/// Whether a path comes before another of its length: in the first week in which they differ it has the lesser rung.
pub(crate) fn comes_before(path: &[u32], other: &[u32]) -> bool
    requires { length path.now ≡ length other.now }
    ensures before { result ≡ true → ComesBefore path.now other.now }
    ensures after { result ≡ false → (path.now ≡ other.now) ⊎ ComesBefore other.now path.now }
{
    for (index, rung) in path.iter().enumerate() {
        if *rung != other[index] {
            return *rung < other[index];
        }
    }
    false
}
