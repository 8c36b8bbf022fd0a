//! What a session promises, whoever plays it, in specs/: its opening, the history that was served, what a reset at any moment leaves and
//! recovers, and how all of it is reported. The layers above cite it in their contracts.
#![tactic(auto)]
