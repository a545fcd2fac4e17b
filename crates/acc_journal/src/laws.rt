//! Laws of the layout, over all bytes.
ghost use Rattle.std.specs.Prelude.{◌≡◌, List, ℕ};
ghost use Rattle.acc_journal.specs.Layout.{Reads, IsForeign, IsCut, payloads_of};

/// Bytes are read in one way: they are a journal of one list of payloads, or of one other version, or cut at one place.
pub fn one_reading()
    ensures payloads { (bytes : List ℕ) (payloads others : List (List ℕ)) → Reads bytes payloads → Reads bytes others → payloads ≡ others }
    ensures list { (bytes : List ℕ) (payloads : List (List ℕ)) → Reads bytes payloads → payloads_of bytes ≡ payloads }
    ensures place { (bytes : List ℕ) (place other : ℕ) → IsCut bytes place → IsCut bytes other → place ≡ other }
    ensures version { (bytes : List ℕ) (version other : ℕ) → IsForeign bytes version → IsForeign bytes other → version ≡ other }
    ensures not_foreign { (bytes : List ℕ) (payloads : List (List ℕ)) (version : ℕ) → Reads bytes payloads → ¬ IsForeign bytes version }
    ensures not_cut { (bytes : List ℕ) (payloads : List (List ℕ)) (place : ℕ) → Reads bytes payloads → ¬ IsCut bytes place }
    ensures foreign_or_cut { (bytes : List ℕ) (version place : ℕ) → IsForeign bytes version → ¬ IsCut bytes place }
{}
