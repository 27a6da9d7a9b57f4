//! What a vector takes to send: code lengths, lambda, the rate of a vector and the rate part of its cost.
#![tactic(auto)]

mod lambdas;
mod lengths;
mod qps;
mod rates;
mod vectors;

pub use lengths::code_length;
pub use qps::Qp;
pub use rates::vector_rate;
pub use vectors::Vector;
