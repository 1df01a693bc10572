//! The tests of envelopes: their grammar, and what they ask for.
//!
//! They stand apart from the crates that they test, so that their proof isn't another proof of those.
#![tactic(auto)]

#[cfg(test)]
mod attribute_tests;
#[cfg(test)]
mod grammar_tests;
#[cfg(test)]
mod large_tests;
#[cfg(test)]
mod refusal_tests;
#[cfg(test)]
mod request_tests;
#[cfg(test)]
mod row_tests;
#[cfg(test)]
mod spelling_tests;
#[cfg(test)]
mod test_envelopes;
#[cfg(test)]
mod word_tests;
