//! Policies of a part of a net and the rounds of policy iteration (chapter 3), as definitions and
//! lemmas alone.
//!
//! A policy gives each member of a part one place that enters it. `IsRound` says what a round is,
//! `FollowsRound` which round follows another, `IsPolicyRun` that rounds are a whole run, and
//! `AreRunsFrom` that they are the runs of parts whose answers they end in. A part has one policy
//! run (`OneRun`). The search stands on them (`teg_howard`), and so do checks of what it printed
//! (`round_check`), which need no search. It has no code: its definitions stand in `specs/`, its
//! lemmas in `proofs/`, and crates above cite them. The crate stands on `teg_certificates` and `number_laws` for lemmas, and
//! on `teg_net` for nets.
#![tactic(auto)]
