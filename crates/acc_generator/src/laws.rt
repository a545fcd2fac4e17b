//! That a generated document is one, and its plan too. Each law is the contract of a function that changes nothing.
ghost use Rattle.std.specs.Prelude.{◌≤◌, ℕ};
ghost use Rattle.acc_schedule.specs.Document.{Means};
ghost use Rattle.acc_schedule.specs.Plan.{IsPlan};
ghost use Rattle.acc_generator.specs.Document.{document_text};
ghost use Rattle.acc_generator.specs.Plan.{plan};

/// The document of each seed and count breaks no rule, and its plan is the one that the rules of the generator say.
pub fn generated_documents_are_accepted()
    ensures { (seed count : ℕ) → count ≤ 2000 → Means (document_text seed count) (plan seed count) }
{}

/// The plan that the rules of the generator say keeps the rules of plans.
pub fn generated_plans_keep_the_rules()
    ensures { (seed count : ℕ) → count ≤ 2000 → IsPlan (plan seed count) }
{}
