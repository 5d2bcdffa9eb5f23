//! Laws of the floor certificate and of raising, over the definitions of prices: both give valid certificates, raising
//! makes them tight and lowers nothing, and each rule has one result. Those who make certificates stand on it.
#![tactic(auto)]

pub mod raising;
