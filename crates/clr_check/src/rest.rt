// What stands at the end of a certificate.

/// What stands after the last line feed.
#[derive(Clone, Copy)]
pub(crate) enum Rest {
    /// No byte.
    Nothing,
    /// Bytes, and no more than a line may have.
    Few,
    /// More bytes than a line may have.
    Many,
}
