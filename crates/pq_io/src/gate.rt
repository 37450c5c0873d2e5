// What is passed before a range is evaluated.

/// A gate that is passed with the name of an output's table before a range of it is evaluated. It takes no part in any answer:
/// a gate that waits lets a test hold the work there.
pub trait Gate {
    /// Passes the gate. One that may wait keeps the runtime in a field, and its impl block alone has the bound for that. Each
    /// other one is proved to return.
    fn pass(&self, table: &str);
}

/// The gate that is always open. To pass it does nothing.
#[derive(Clone, Copy, Debug, PartialEq, Eq)]
pub struct OpenGate;

impl Gate for OpenGate {
    fn pass(&self, _table: &str) {}
}
