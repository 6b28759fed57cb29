//! The law of policy runs. It is a function that does nothing when it runs: its contract is the
//! law.
ghost use Rattle.policy_rounds.specs.OnePolicyRun.{PolicyRunsAreOne};

/// A part of a live net has one policy run only: what two calls tell of it is the same (chapter
/// 3).
pub fn policy_runs_are_one()
    ensures { PolicyRunsAreOne }
{}
