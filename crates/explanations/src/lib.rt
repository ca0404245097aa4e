//! What each code of a refusal means: the rule, an example that is refused, and the same mended; and
//! what shows first that the parts of an input are refused for it.
#![tactic(auto)]

mod codes;
pub mod counterexample;
mod image;
mod telling;
mod texts;

pub use codes::{list_codes, text_of};
pub use counterexample::{Counterexample, first_counterexample};
pub use image::image_parts;
pub use telling::{Names, tell_counterexample};
