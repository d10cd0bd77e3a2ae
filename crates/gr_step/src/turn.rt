//! Whose turn it is.

use gr_base::{ChName, Event};
use gr_record::Listing;

/// The turn of a goroutine that is ready: the program, the event whose step it takes, and its number.
#[derive(Clone, Copy)]
pub(crate) struct Turn<'a> {
    pub(crate) listing: &'a Listing,
    pub(crate) event: &'a Event,
    pub(crate) number: usize,
}

/// Its communication on a channel, as a statement or as the clause of a select with this number, counted from 1.
#[derive(Clone, Copy)]
pub(crate) struct Meeting<'a> {
    pub(crate) turn: &'a Turn<'a>,
    pub(crate) clause: Option<u32>,
    pub(crate) channel: &'a ChName,
}
