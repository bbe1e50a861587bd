//! Worked examples of simplices, complexes, their numbers, parts and constructions, through the public calls of their crates.
#![tactic(auto)]

#[cfg(test)]
mod betti_tables_tests;
#[cfg(test)]
mod collapse_moves_tests;
#[cfg(test)]
mod constructions_tests;
#[cfg(test)]
mod face_lattice_tests;
#[cfg(test)]
mod face_vectors_tests;
#[cfg(test)]
mod facet_set_tests;
#[cfg(test)]
mod flip_rules_tests;
#[cfg(test)]
mod gf2_rank_tests;
#[cfg(test)]
mod invariants_tests;
#[cfg(test)]
mod local_parts_tests;
#[cfg(test)]
mod morse_lists_tests;
#[cfg(test)]
mod packed_keys_tests;
#[cfg(test)]
mod ranked_set_tests;
#[cfg(test)]
mod samples;
#[cfg(test)]
mod seeded_words_tests;
#[cfg(test)]
mod shellings_tests;
#[cfg(test)]
mod simplex_tests;
