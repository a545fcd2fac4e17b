//! What has to hold of a tape's list.
ghost use Rattle.std.specs.Prelude.{List};

/// The rules of a tape: which lists of items may stand on it. They are for the proofs alone and cost nothing at run time.
pub trait Rules<E> {
    /// The list may stand on the tape.
    ghost fits: { List E → Type 0 };
}
