//! Laws of the format. Each is the contract of a function that does nothing.
ghost use Rattle.std.specs.Prelude.{◌≡◌, ◌++◌, ℕ, List, Option};
ghost use Rattle.std.specs.List.{AllByRecursion};
ghost use Rattle.acc_value.specs.Cells.{cell_of};
ghost use Rattle.acc_value.specs.declared.key.Key.{Key};
ghost use Rattle.acc_value.specs.declared.value.Value.{Value};
ghost use Rattle.acc_txn.specs.declared.outcome.Outcome.{Outcome};
ghost use Rattle.acc_txn.specs.declared.parts.BodyParts.{BodyParts};
ghost use Rattle.acc_txn.specs.Meaning.{outcome_of};
ghost use Rattle.acc_txn.specs.BodySpelling.{body_bytes};
ghost use Rattle.acc_code.specs.Spelling.{cells_bytes, outcome_bytes};
ghost use Rattle.acc_code.specs.Short.{AreShortCells, IsCell, AreCells, IsShortOutcome, IsOutcome, IsNumberedBody};

/// Two lists of cells have different spellings, and neither begins the other: what begins with the spellings of both
/// goes on in the same way.
pub fn one_spelling_of_cells()
    ensures { (a b : List (Key × Option Value)) (x y : List ℕ) → AreCells a → AreCells b → cells_bytes a ++ x ≡ cells_bytes b ++ y
        → (a ≡ b) × (x ≡ y) }
{}

/// Two outcomes have different spellings, and neither begins the other.
pub fn one_spelling_of_outcomes()
    ensures { (a b : Outcome) (x y : List ℕ) → IsOutcome a → IsOutcome b → outcome_bytes a ++ x ≡ outcome_bytes b ++ y
        → (a ≡ b) × (x ≡ y) }
{}

/// Two bodies have different spellings, and neither begins the other.
pub fn one_spelling_of_bodies()
    ensures { (a b : BodyParts) (x y : List ℕ) → IsNumberedBody a → IsNumberedBody b → body_bytes a ++ x ≡ body_bytes b ++ y
        → (a ≡ b) × (x ≡ y) }
{}

/// What is read can be written again, without a further condition. A body always can.
pub fn what_fits_is_short()
    ensures cells { (cells : List (Key × Option Value)) → AreCells cells → AreShortCells cells }
    ensures outcomes { (o : Outcome) → IsOutcome o → IsShortOutcome o }
{}

/// What a body answers can be written, and read: on cells that are null, numbers of 64 bits or texts that a cell may hold, and
/// so on those that a list of such cells has.
pub fn what_is_answered_fits()
    ensures of_cells { (body : BodyParts) (cells : Key → Option Value) → IsNumberedBody body → ((key : Key) → IsCell (cells key))
        → IsOutcome (outcome_of body cells) }
    ensures of_list { (body : BodyParts) (cells : List (Key × Option Value)) → IsNumberedBody body → AllByRecursion (λ p. IsCell p.1) cells
        → IsOutcome (outcome_of body (cell_of cells)) }
{}
