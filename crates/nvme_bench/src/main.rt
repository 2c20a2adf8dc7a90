//! `nvme_bench WHAT ROUNDS` measures a part of the product, and plain work on the same number of bytes. `WHAT` is
//! `pointers`, `transfers`, `events` or `text`; or `image`, followed by the name of an image of at least 512 blocks.
#![tactic(auto)]

mod events;
mod image;
mod opening;
mod pointers;
mod stopwatch;
mod text;
mod transfers;

use std::rt::Env;
use std::{env, io};

/// What is measured, and how often.
struct Task {
    what: What,
    rounds: u32,
}

/// A part of the product.
enum What {
    Pointers,
    Transfers,
    Events,
    Text,
    /// Transfers over the image of this name.
    Image(String),
}

fn main(rt: HostRuntime) -> io::Result<()> {
    let Some(Task { what, rounds }) = task_in(&rt)? else {
        return println!(rt;
            "usage: nvme_bench pointers|transfers|events|text ROUNDS, or nvme_bench image ROUNDS IMAGE"
        );
    };
    match what {
        What::Pointers => pointers::all(&rt, rounds),
        What::Transfers => transfers::all(&rt, rounds),
        What::Events => events::all(&rt, rounds),
        What::Text => text::all(&rt, rounds),
        What::Image(name) => image::all(&rt, name.as_str(), rounds),
    }
}

/// The task of the command line.
fn task_in<R: Env + AllocGlobal>(rt: &R) -> io::Result<Option<Task>> {
    let mut words = env::args(rt)?.skip(1);
    let Some(name) = words.next() else {
        return Ok(None);
    };
    let Some(rounds) = words.next().and_then(|word| word.parse().ok()) else {
        return Ok(None);
    };
    let what = match (name.as_str(), words.next()) {
        ("pointers", None) => What::Pointers,
        ("transfers", None) => What::Transfers,
        ("events", None) => What::Events,
        ("text", None) => What::Text,
        ("image", Some(image)) => What::Image(image),
        _ => return Ok(None),
    };
    Ok(Some(Task { what, rounds }))
}
