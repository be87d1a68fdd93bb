//! Flights, the pictures that are decoded together: their values by the coding tree units of them that are known, the
//! rows that each unit needs, and what each word of them is to hold (H.265 8.1.3, 8.5.3, 8.7, C.5.2.3).
#![tactic(auto)]
