//! Laws of the sequential service, in proofs/: what holds of the state between requests, and that legal histories are whole; the
//! core cites them in its proofs.
#![tactic(auto)]
