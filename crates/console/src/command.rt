//! What a line says, with its numbers' digits as borrowed parts of the input.

/// A line after the first. `Take`, `Divide` and `Exact` hold the digits of their number.
#[derive(Clone, Copy, Drop)]
pub enum Command<'a> {
    Take(&'a [u8]),
    Drop,
    Wipe,
    Settle,
    Divide(&'a [u8]),
    Exact(&'a [u8]),
}

/// The first line: the kind of weighing, the nominal length of an even one, and the limit of spans.
// The limit stands in each kind, so that every variant has its numbers in the order of the line.
#[derive(Clone, Copy, Drop)]
pub enum Opening<'a> {
    Ceiling { limit: &'a [u8] },
    Middle { limit: &'a [u8] },
    Even { length: &'a [u8], limit: &'a [u8] },
}
