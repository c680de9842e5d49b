//! How a trial ended.

/// How a trial of one call ended.
#[derive(Clone, Copy, Debug, PartialEq, Eq)]
pub(crate) enum Trial {
    /// The call was done.
    Done,
    /// The call was refused; its object was as before, and the call was done when it was tried again.
    Refused,
    /// The call was refused, and its object was not as stated, or the call was refused once more.
    Changed,
    /// There was no memory for what the call needs.
    Unprepared,
}

impl Trial {
    /// The trial of a refused call, where all is as it should be.
    pub(crate) fn kept(is_kept: bool) -> Trial {
        if is_kept {
            Trial::Refused
        } else {
            Trial::Changed
        }
    }

    /// What a line says of it.
    pub(crate) fn text(self) -> &'static str {
        match self {
            Trial::Done => "done",
            Trial::Refused => "refused, kept",
            Trial::Changed => "refused, CHANGED",
            Trial::Unprepared => "not begun",
        }
    }
}
