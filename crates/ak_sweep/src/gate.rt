/// What stands around the runs of a sweep. A test sees by it that workers run side by side.
pub trait Gate {
    /// The run at an index, from 0 on, begins.
    fn enter(&self, index: u64);

    /// It has ended.
    fn leave(&self, index: u64);
}

/// A gate that does nothing.
#[derive(Clone, Copy)]
pub struct OpenGate;

impl Gate for OpenGate {
    fn enter(&self, _index: u64) {}

    fn leave(&self, _index: u64) {}
}
