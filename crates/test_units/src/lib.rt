//! Calls of what the crates below the session offer, one of each public function that no program's rows reach: whoever
//! changes one of those crates may rely on it that its functions can be called as their contracts say.
#![tactic(auto)]

#[cfg(test)]
mod adapters;
#[cfg(test)]
mod check_words;
#[cfg(test)]
mod images;
#[cfg(test)]
mod kinds;
#[cfg(test)]
mod placing;
#[cfg(test)]
mod recovering;
#[cfg(test)]
mod shipped_functions;
#[cfg(test)]
mod showing;
#[cfg(test)]
mod tables;
#[cfg(test)]
mod validations;
