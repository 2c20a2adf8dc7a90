//! A stream that a program borrows.

use std::marker::Model;

/// A stream that a program borrows. Each stream has a struct of its own, so that contracts know the effect on each: if
/// one struct with a model has several references and is taken apart, they know it of one of them.
#[derive(Drop)]
pub struct Lent<'a, T> {
    pub stream: &'a mut T,
}

impl<'a, T> Model for Lent<'a, T> {
    ghost use Rattle.nvme_program.specs.Streams.{Stream};

    ghost Value = { Stream T };

    ghost view = { λ l. record { state = l.stream.now; name = l.stream.ghost_name } };
}
