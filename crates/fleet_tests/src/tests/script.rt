//! Scripts over media and streams that fail at any of their calls.

mod broken_streams;
mod lines;
mod media;
mod streams;
