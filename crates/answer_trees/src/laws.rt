//! Facts about the definitions. Each function has an empty body; its contract states the fact.

ghost use Rattle.std.specs.Prelude.{◌≡◌, ℕ, List, false};
ghost use Rattle.serde_json.specs.Written.{has_float};
ghost use Rattle.trace_model.specs.declared.answer.Answer.{Answer};
ghost use Rattle.answer_trees.specs.Trees.{answer_tree, error_tree};

/// No tree has a float, so `to_string` returns its compact text.
#[tactic(auto, using(crate::proofs::NoFloat::answer_no))]
pub fn trees_have_no_float()
    ensures answers { (a : Answer) → has_float (answer_tree a) ≡ false }
    ensures errors { (code : ℕ) (msg : List ℕ) → has_float (error_tree code msg) ≡ false }
{}
