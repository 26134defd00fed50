// What is wrong with a checkpoint.

/// Why a checkpoint is refused.
#[derive(Clone, Copy, Debug, PartialEq, Eq)]
pub enum CheckWhy {
    /// There are more instances than a checkpoint can have.
    Many,
    /// The word isn't that of a checkpoint of these instances.
    Form,
    /// No machine of the instance's kind, options and rate saves its bytes.
    Fit,
}

/// Which instance refuses a checkpoint, and why: 0 for a form, and the first one too many of many.
#[derive(Clone, Copy, Debug, PartialEq, Eq)]
pub struct CheckFault {
    pub instance: u32,
    pub why: CheckWhy,
}
