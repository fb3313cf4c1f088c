//! The rule on ABI names that clash: two members of an interface that have one ABI name, or of which one's name is the
//! other's ABI name, but for ASCII case. Few members are compared in pairs, many by counts of names.
#![tactic(auto)]

mod clash;
mod joined;
mod names;
mod pairs;
mod tallies;

pub use clash::AccessorClash;
