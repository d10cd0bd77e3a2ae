//! Who waits on a channel.

use gr_base::GoName;

/// A goroutine that waits on a channel: a `Waiter<Value>` sends its value, a `Waiter<()>` receives.
#[derive(Drop)]
pub struct Waiter<T> {
    pub go: GoName,
    /// The case that waits, counted from 1, where the goroutine waits in a select.
    pub case: Option<u32>,
    pub value: T,
}
