//! Weighted lists and couplings, the theory under the relational rules of the prover; and tables of weights, the finite distributions that
//! forms come to. Exact fractions of whole numbers below 2^127 in size.
#![tactic(auto)]

pub mod combine;
pub mod coupling_laws;
pub mod event_laws;
pub mod examples;
pub mod existence_laws;
pub mod frac;
pub mod laws;
pub mod list_laws;
pub mod make;
pub mod number;
pub mod number_laws;
pub mod order;
pub mod parts;
pub mod relation;
pub mod row;
pub mod sort;
pub mod table;
pub mod whole;
