//! The reader of spec texts by recursive descent.

mod bytes;
mod contexts;
mod ending;
mod functions;
mod leaves;
mod lists;
mod parts;
mod patterns;
mod reader;
mod reading;
mod rest;
mod runs;
mod simple;
mod tests;
mod tokens;
mod words;

pub use contexts::ListContext;
pub use reading::{
    TextParts, ending_in, is_open, read_more, read_nothing, read_text, say_on, says,
};
