/// A step of storing a cookie. The rank is the number of persistent cookies before the place, when
/// the step is done.
#[derive(Debug, Clone, Copy, PartialEq, Eq)]
pub enum JarStep {
    /// The new cookie is put before the one at the place, or at the end.
    Insert {
        place: usize,
        rank: usize,
    },
    /// The new cookie is put in the place of the same one.
    Replace {
        place: usize,
        rank: usize,
        was_persistent: bool,
    },
    /// The cookie at the place goes.
    Remove {
        place: usize,
        rank: usize,
        was_persistent: bool,
    },
}
