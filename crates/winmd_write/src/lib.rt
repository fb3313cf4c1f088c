//! The image of a set of declarations (ECMA-335 II.22 to II.25): strict for the set, and, where the set keeps the limits, one that states it.
#![tactic(auto)]

mod image;
mod makers;
mod sets;

pub use image::image_of;
