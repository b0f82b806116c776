//! Totals over lists, and what they come to where one element of a list changes. It has no code.
#![tactic(auto)]
