//! The coding tree units of a picture by address, each read from what those before it leave to it, whoever reads them
//! and in which order (H.265 7.3.8.1, 9.3.1, 9.3.2).
#![tactic(auto)]
